// Lines that go onto seats and come off them, along an axis of the tables: a column of a board that is turned is a row there.
ghost use Rattle.std.specs.Prelude.{◌≡◌};
ghost use Rattle.cells.specs.Refusals.{answered, Kept};
ghost use Rattle.matrix.specs.Matrix.{over};
ghost use Rattle.matrix.specs.Axes.{inserted, removed, line_of, insert_along, remove_along};
ghost use Rattle.seating.specs.Lines.{line_spots, Placed};
ghost use Rattle.seats.specs.Boards.{upright, limits};

use crate::board::SeatBoard;
use cells::refusal::Refusal;
use matrix::axis::Axis;
use seating::seating::edits;

impl<'a, T: Copy> SeatBoard<'a, T> {
    // The line goes onto a free seat, as line i along the axis of the tables.
    pub fn seat_line(&mut self, axis: Axis, i: usize, line: &[T]) -> Result<(), Refusal>
        ensures answer { result ≡ insert_along (limits self.old) axis i line.now (upright self.old) }
        ensures effect { upright self.new ≡ answered result (inserted axis i line.now (upright self.old)) (upright self.old) }
        ensures cells { Placed (λ _. line_spots axis i self.new.seats) result line.now self.old.cells.now self.new.cells.now }
        ensures limits { limits self.new ≡ limits self.old }
        ensures seats { Kept result self.old.seats self.new.seats }
        ensures facing { self.new.facing ≡ self.old.facing }
        ensures memory { self.new.cells.ghost_name ≡ self.old.cells.ghost_name }
    {
        edits::insert(self.cells, &mut self.seats, axis, i, line)
    }

    // Line i along the axis of the tables goes into the first cells of the memory, and its seat is free: no cell changes.
    pub fn free_line(&mut self, axis: Axis, i: usize, memory: &mut [T]) -> Result<(), Refusal>
        ensures answer { result ≡ remove_along axis i memory.old (upright self.old) }
        ensures effect { upright self.new ≡ answered result (removed axis i (upright self.old)) (upright self.old) }
        ensures line { memory.new ≡ answered result (over (line_of axis i (upright self.old)) memory.old) memory.old }
        ensures cells { self.new.cells.now ≡ self.old.cells.now }
        ensures limits { limits self.new ≡ limits self.old }
        ensures seats { Kept result self.old.seats self.new.seats }
        ensures facing { self.new.facing ≡ self.old.facing }
        ensures memory { self.new.cells.ghost_name ≡ self.old.cells.ghost_name }
    {
        edits::remove(self.cells, &mut self.seats, axis, i, memory)
    }
}
