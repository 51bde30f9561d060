// A call along an axis is the call along the other between two transpositions, on any board.
// kept: `limits` on each call, since it speaks of a board before and after the call, and an invariant speaks of one value. An
// axis and an index come as a board's own calls take them; a struct would be built for this call and taken apart in it. The two
// turns stand in each of the three, since a function of a closure over them would state in a clause what two lines do.
ghost use Rattle.std.specs.Prelude.{◌≡◌};
ghost use Rattle.cells.specs.Refusals.{answered};
ghost use Rattle.matrix.specs.Matrix.{Matrix, over};
ghost use Rattle.matrix.specs.Axes.{inserted, removed, line_of, flipped, insert_along, remove_along};

use boards::board::Board;
use cells::refusal::Refusal;
use matrix::axis::Axis;

// What `insert` does, by way of the other axis.
pub fn insert_by_turns<B: Board>(
    b: &mut B,
    axis: Axis,
    i: usize,
    line: &[B::Cell],
) -> Result<(), Refusal>
    ensures answer { result ≡ insert_along (B.limits b.old) axis i line.now (B.matrix b.old) }
    ensures effect { B.matrix b.new ≡ answered result (inserted axis i line.now (B.matrix b.old)) (B.matrix b.old) }
    ensures limits { B.limits b.new ≡ B.limits b.old }
{
    b.transpose();
    let r = b.insert(axis.other(), i, line);
    b.transpose();
    r
}

// What `remove` does, by way of the other axis.
pub fn remove_by_turns<B: Board>(
    b: &mut B,
    axis: Axis,
    i: usize,
    memory: &mut [B::Cell],
) -> Result<(), Refusal>
    ensures answer { result ≡ remove_along axis i memory.old (B.matrix b.old) }
    ensures effect { B.matrix b.new ≡ answered result (removed axis i (B.matrix b.old)) (B.matrix b.old) }
    ensures line { memory.new ≡ answered result (over (line_of axis i (B.matrix b.old)) memory.old) memory.old }
    ensures limits { B.limits b.new ≡ B.limits b.old }
{
    b.transpose();
    let r = b.remove(axis.other(), i, memory);
    b.transpose();
    r
}

// What `flip` does, by way of the other axis.
pub fn flip_by_turns<B: Board>(b: &mut B, axis: Axis)
    ensures effect { B.matrix b.new ≡ flipped axis (B.matrix b.old) }
    ensures limits { B.limits b.new ≡ B.limits b.old }
{
    b.transpose();
    b.flip(axis.other());
    b.transpose();
}
