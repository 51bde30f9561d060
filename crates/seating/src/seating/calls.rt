// The calls of a board on memory and a seating: any memory, any number gets the fixed answer.
ghost use Rattle.std.specs.Prelude.{◌≡◌, ◌*◌, ◌<◌, ◌≤◌, if◌then◌else◌, nat_le};
ghost use Rattle.matrix.specs.Axes.{other};
ghost use Rattle.matrix.specs.declared.limits.Limits.{Limits};
ghost use Rattle.seating.specs.Benches.{flipped};
ghost use Rattle.seating.specs.Seats.{spot_of, counted, seated_limits, spots, bench_of, Opened, Closed};
ghost use Rattle.seating.specs.Lines.{line_spots};

use crate::bench::Bench;
use crate::seating::Seating;
use matrix::axis::Axis;
use matrix::checks::left_across;
use matrix::limits::Limits;

impl Seating {
    // Line i along the axis on the first seat that is free, and n lines across.
    pub(crate) fn open(&mut self, axis: Axis, i: usize, n: usize)
        requires at { i ≤ (bench_of axis self.old).count }
        requires some { 0 < n }
        requires tall { (bench_of axis self.old).count < self.old.down.side }
        requires wide { n ≤ self.old.down.side }
        ensures effect { Opened axis self.old self.new i n }
    {
        match axis {
            Axis::Row => {
                self.down.open(i);
                self.across.take(n);
            }
            Axis::Col => {
                self.across.open(i);
                self.down.take(n);
            }
        }
    }

    // Without line i along the axis, whose seat is free; without a line across once none is left.
    pub(crate) fn close(&mut self, axis: Axis, i: usize)
        requires at { i < (bench_of axis self.old).count }
        ensures effect { Closed axis self.old self.new i }
    {
        match axis {
            Axis::Row => {
                let columns = left_across(self.down.count, self.across.count);
                self.down.close(i);
                self.across.take(columns);
            }
            Axis::Col => {
                let rows = left_across(self.across.count, self.down.count);
                self.across.close(i);
                self.down.take(rows);
            }
        }
    }

    // Every seat free; no seats at all where the side is above 256. Which seat comes first is free.
    pub fn empty(side: usize) -> Seating
        ensures side { result.down.side ≡ (if nat_le side 256 then side else 0) }
        ensures rows { result.down.count ≡ 0 }
        ensures cols { result.across.count ≡ 0 }
    {
        let bench = Bench::empty(side);
        Seating {
            down: bench,
            across: bench,
        }
    }

    // S and N over n cells of memory.
    pub fn limits(&self, n: usize) -> Limits
        ensures answer { result ≡ seated_limits self.now n }
    {
        let side = self.down.side;
        let side = if side * side <= n { side } else { 0 };
        Limits {
            side,
            most: side * side,
        }
    }

    // How many rows and columns there are over n cells of memory.
    pub fn size(&self, n: usize) -> (usize, usize)
        ensures answer { result ≡ (counted self.now n self.now.down.count, counted self.now n self.now.across.count) }
    {
        let side = self.down.side;
        if side * side <= n {
            (self.down.count, self.across.count)
        } else {
            (0, 0)
        }
    }

    // How many lines there are along the axis and across over n cells of memory.
    pub(crate) fn lines(&self, n: usize, axis: Axis) -> (usize, usize)
        ensures answer { result ≡ (counted self.now n (bench_of axis self.now).count, counted self.now n (bench_of (other axis) self.now).count) }
    {
        let (rows, cols) = self.size(n);
        axis.pair(rows, cols)
    }

    // The lines along the axis end for end, in place.
    pub fn flip(&mut self, axis: Axis)
        ensures table { (bench_of axis self.new).table ≡ flipped (bench_of axis self.old).count (bench_of axis self.old).table }
        ensures count { (bench_of axis self.new).count ≡ (bench_of axis self.old).count }
        ensures side { (bench_of axis self.new).side ≡ (bench_of axis self.old).side }
        ensures across { bench_of (other axis) self.new ≡ bench_of (other axis) self.old }
    {
        // kept: each arm is another field, and no step to hand over
        match axis {
            Axis::Row => self.down.flip(),
            Axis::Col => self.across.flip(),
        }
    }

    // The flat place of row r and column c over n cells of memory, absent outside.
    // kept: r and c, as every call of a board names them; a struct would be made for each call.
    pub fn place(&self, n: usize, r: usize, c: usize) -> Option<usize>
        ensures answer { result ≡ (spots self.now n).cell r c }
    {
        let (rows, cols) = self.size(n);
        if r < rows && c < cols {
            Some(self.spot(r, c))
        } else {
            None
        }
    }

    // The flat place of cell c of line i along the axis.
    pub(crate) fn spot_along(&self, axis: Axis, i: usize, c: usize) -> usize
        requires line { i < self.now.down.side }
        requires cell { c < self.now.down.side }
        ensures answer { result ≡ line_spots axis i self.now c }
        ensures inside { result < self.now.down.side * self.now.down.side }
    {
        let (r, c) = axis.pair(i, c);
        self.spot(r, c)
    }

    // The flat place of row r and column c.
    pub(crate) fn spot(&self, r: usize, c: usize) -> usize
        requires row { r < self.now.down.side }
        requires col { c < self.now.down.side }
        ensures answer { result ≡ spot_of self.now r c }
        ensures inside { result < self.now.down.side * self.now.down.side }
    {
        let a = self.down.table[r] as usize;
        let b = self.across.table[c] as usize;
        a * self.down.side + b
    }
}
