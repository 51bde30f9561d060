// A line that goes in and comes out again, on any board.
// kept: `limits` on the call, since it speaks of a board before and after it, and an invariant speaks of one value. An axis and an
// index come as a board's own calls take them; a struct would be built for this call and taken apart in it.
ghost use Rattle.std.specs.Prelude.{◌≡◌, length, nat_lt};
ghost use Rattle.cells.specs.Refusals.{answered, refused};
ghost use Rattle.matrix.specs.Matrix.{Matrix, over};
ghost use Rattle.matrix.specs.Axes.{insert_along};

use boards::board::Board;
use cells::refusal::Refusal;
use matrix::axis::Axis;

// Inserts the line as line i along the axis and removes it: the board is as it was, and the line lies in the memory. SHORT is
// asked first, so that nothing goes in that could not come out.
pub fn there_and_back<B: Board>(
    b: &mut B,
    axis: Axis,
    i: usize,
    line: &[B::Cell],
    memory: &mut [B::Cell],
) -> Result<(), Refusal>
    ensures answer { result ≡ refused 9 (nat_lt (length memory.old) (length line.now)) (insert_along (B.limits b.old) axis i line.now (B.matrix b.old)) }
    ensures effect { B.matrix b.new ≡ B.matrix b.old }
    ensures line { memory.new ≡ answered result (over line.now memory.old) memory.old }
    ensures limits { B.limits b.new ≡ B.limits b.old }
{
    if memory.len() < line.len() {
        return Err(Refusal::Short);
    }
    b.insert(axis, i, line)?;
    b.remove(axis, i, memory)
}
