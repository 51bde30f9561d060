// The seat board is a board.
ghost use Rattle.std.specs.Prelude.{◌≡◌, length, slice_set};
ghost use Rattle.cells.specs.Refusals.{answered, Kept};
ghost use Rattle.matrix.specs.Axes.{along, beneath, other, inserted, removed, line_of, flipped, insert_along, remove_along};
ghost use Rattle.matrix.specs.Matrix.{Matrix, put_cell, over, turned};
ghost use Rattle.matrix.specs.Rules.{put_answer};
ghost use Rattle.seating.specs.Seats.{spots};
ghost use Rattle.seating.specs.Lines.{line_spots, Placed};
ghost use Rattle.seating.proofs.Owes.{along_within};
ghost use Rattle.seats.specs.Boards.{matrix, limits, flat_place};

use crate::board::SeatBoard;
use boards::board::Board;
use cells::refusal::Refusal;
use flat::calls::poke;
use matrix::axis::Axis;
use matrix::limits::Limits;
use seating::seating::places::seated_at;

impl<'a, T: Copy> SeatBoard<'a, T> {
    // kept: r and c, and axis and i below, as the interface names them; a struct would be made for each call.
    // The flat place of row r and column c, absent outside.
    fn place(&self, r: usize, c: usize) -> Option<usize>
        ensures answer { result ≡ (along self.now.facing (spots self.now.seats (length self.now.cells.now))).cell r c }
    {
        let (row, col) = self.facing.pair(r, c);
        self.seats.place(self.cells.len(), row, col)
    }
}

impl<'a, T: Copy> Board for SeatBoard<'a, T> {
    type Cell = T;

    ghost matrix = { λ b. matrix b };

    ghost limits = { λ b. limits b };

    ghost within = { λ b. along_within b.facing b.seats b.cells.now };

    fn size(&self) -> (usize, usize) {
        let (rows, cols) = self.seats.size(self.cells.len());
        self.facing.pair(rows, cols)
    }

    fn bounds(&self) -> Limits {
        self.seats.limits(self.cells.len())
    }

    fn get(&self, r: usize, c: usize) -> Option<T> {
        let (row, col) = self.facing.pair(r, c);
        seated_at(self.cells, &self.seats, row, col)
    }

    fn put(&mut self, r: usize, c: usize, x: T) -> Result<(), Refusal>
        ensures answer { result ≡ put_answer r c (matrix self.old) }
        ensures effect { matrix self.new ≡ answered result (put_cell r c x (matrix self.old)) (matrix self.old) }
        ensures cells { self.new.cells.now ≡ answered result (slice_set self.old.cells.now (flat_place self.old r c) x) self.old.cells.now }
        ensures limits { limits self.new ≡ limits self.old }
        ensures seats { self.new.seats ≡ self.old.seats }
        ensures facing { self.new.facing ≡ self.old.facing }
        ensures memory { self.new.cells.ghost_name ≡ self.old.cells.ghost_name }
    {
        let k = self.place(r, c).ok_or(Refusal::Place)?;
        poke(self.cells, k, x);
        Ok(())
    }

    fn insert(&mut self, axis: Axis, i: usize, line: &[T]) -> Result<(), Refusal>
        ensures answer { result ≡ insert_along (limits self.old) axis i line.now (matrix self.old) }
        ensures effect { matrix self.new ≡ answered result (inserted axis i line.now (matrix self.old)) (matrix self.old) }
        ensures cells { Placed (λ _. line_spots (beneath self.old.facing axis) i self.new.seats) result line.now self.old.cells.now self.new.cells.now }
        ensures limits { limits self.new ≡ limits self.old }
        ensures seats { Kept result self.old.seats self.new.seats }
        ensures facing { self.new.facing ≡ self.old.facing }
        ensures memory { self.new.cells.ghost_name ≡ self.old.cells.ghost_name }
    {
        let beneath = axis.beneath(self.facing);
        self.seat_line(beneath, i, line)
    }

    fn remove(&mut self, axis: Axis, i: usize, memory: &mut [T]) -> Result<(), Refusal>
        ensures answer { result ≡ remove_along axis i memory.old (matrix self.old) }
        ensures effect { matrix self.new ≡ answered result (removed axis i (matrix self.old)) (matrix self.old) }
        ensures line { memory.new ≡ answered result (over (line_of axis i (matrix self.old)) memory.old) memory.old }
        ensures cells { self.new.cells.now ≡ self.old.cells.now }
        ensures limits { limits self.new ≡ limits self.old }
        ensures seats { Kept result self.old.seats self.new.seats }
        ensures facing { self.new.facing ≡ self.old.facing }
        ensures memory { self.new.cells.ghost_name ≡ self.old.cells.ghost_name }
    {
        let beneath = axis.beneath(self.facing);
        self.free_line(beneath, i, memory)
    }

    // The facing alone.
    fn transpose(&mut self)
        ensures effect { matrix self.new ≡ turned (matrix self.old) }
        ensures cells { self.new.cells.now ≡ self.old.cells.now }
        ensures limits { limits self.new ≡ limits self.old }
        ensures seats { self.new.seats ≡ self.old.seats }
        ensures facing { self.new.facing ≡ other self.old.facing }
        ensures memory { self.new.cells.ghost_name ≡ self.old.cells.ghost_name }
    {
        self.facing = self.facing.other();
    }

    fn flip(&mut self, axis: Axis)
        ensures effect { matrix self.new ≡ flipped axis (matrix self.old) }
        ensures cells { self.new.cells.now ≡ self.old.cells.now }
        ensures limits { limits self.new ≡ limits self.old }
        ensures facing { self.new.facing ≡ self.old.facing }
        ensures memory { self.new.cells.ghost_name ≡ self.old.cells.ghost_name }
    {
        let beneath = axis.beneath(self.facing);
        self.seats.flip(beneath);
    }
}
