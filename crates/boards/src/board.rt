// What a board is: a matrix with limits behind an interface, so that what stands above is written and proved once.
ghost use Rattle.std.specs.Prelude.{◌≡◌};
ghost use Rattle.cells.specs.Refusals.{answered};
ghost use Rattle.matrix.specs.declared.limits.Limits.{Limits};
ghost use Rattle.matrix.specs.Matrix.{Matrix, put_cell, over, turned};
ghost use Rattle.matrix.specs.Rules.{Within, put_answer};
ghost use Rattle.matrix.specs.Axes.{inserted, removed, line_of, flipped, insert_along, remove_along};

use cells::refusal::Refusal;
use matrix::axis::Axis;
use matrix::limits::Limits;

// A board has its own kind of cell. Its meaning is a matrix and its limits, which never change; its law is what every board
// owes: sides within S, cells within N, no rows exactly where no columns, a cell at each place.
// kept: `limits` on each changing call, since a ghost member speaks of one board and not of what a call leaves.
pub trait Board {
    type Cell: Copy;

    ghost matrix: { Self → Matrix Self.Cell };

    ghost limits: { Self → Limits };

    fn size(&self) -> (usize, usize)
        ensures answer { result ≡ ((matrix self.now).rows, (matrix self.now).cols) };

    fn bounds(&self) -> Limits
        ensures answer { result ≡ limits self.now };

    // kept: a row and a column, and an axis and an index below, since callers have them apart, as variants of a list hold them or as
    // numbers of their own; a struct would be made of them for this call and taken apart in it.
    fn get(&self, r: usize, c: usize) -> Option<Self::Cell>
        ensures answer { result ≡ (matrix self.now).cell r c };

    fn put(&mut self, r: usize, c: usize, x: Self::Cell) -> Result<(), Refusal>
        ensures answer { result ≡ put_answer r c (matrix self.old) }
        ensures effect { matrix self.new ≡ answered result (put_cell r c x (matrix self.old)) (matrix self.old) }
        ensures limits { limits self.new ≡ limits self.old };

    // The line becomes line i along the axis; later lines move by one.
    fn insert(&mut self, axis: Axis, i: usize, line: &[Self::Cell]) -> Result<(), Refusal>
        ensures answer { result ≡ insert_along (limits self.old) axis i line.now (matrix self.old) }
        ensures effect { matrix self.new ≡ answered result (inserted axis i line.now (matrix self.old)) (matrix self.old) }
        ensures limits { limits self.new ≡ limits self.old };

    // Line i along the axis goes, its cells into the first cells of the memory.
    fn remove(&mut self, axis: Axis, i: usize, memory: &mut [Self::Cell]) -> Result<(), Refusal>
        ensures answer { result ≡ remove_along axis i memory.old (matrix self.old) }
        ensures effect { matrix self.new ≡ answered result (removed axis i (matrix self.old)) (matrix self.old) }
        ensures line { memory.new ≡ answered result (over (line_of axis i (matrix self.old)) memory.old) memory.old }
        ensures limits { limits self.new ≡ limits self.old };

    fn transpose(&mut self)
        ensures effect { matrix self.new ≡ turned (matrix self.old) }
        ensures limits { limits self.new ≡ limits self.old };

    // The last line along the axis comes first.
    fn flip(&mut self, axis: Axis)
        ensures effect { matrix self.new ≡ flipped axis (matrix self.old) }
        ensures limits { limits self.new ≡ limits self.old };

    // What every board owes.
    ghost within: { (b : Self) → Within (limits b) (matrix b) };
}
