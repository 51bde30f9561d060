// The lines of a board along an axis.
ghost use Rattle.std.specs.Prelude.{◌≡◌};
ghost use Rattle.matrix.specs.Matrix.{Matrix};
ghost use Rattle.matrix.specs.Axes.{along};

use boards::board::Board;
use matrix::axis::Axis;

// How many lines there are, and how many cells each has.
// kept: two lines, as a grid has them of its own; a call of the interface would be one more for every board to implement
pub(crate) fn lines<B: Board>(b: &B, axis: Axis) -> (usize, usize)
    ensures answer { result ≡ ((along axis (B.matrix b.now)).rows, (along axis (B.matrix b.now)).cols) }
{
    let (rows, cols) = b.size();
    axis.pair(rows, cols)
}
