// The calls that change a grid's cells or lines.
// kept: `stays` and `kept` stand on each call, since they speak of a grid before and after it, and no invariant does.
ghost use Rattle.std.specs.Prelude.{◌≡◌, ℕ, ◌-◌, is_ok, if◌then◌else◌};
ghost use Rattle.cells.specs.Refusals.{answered, Kept};
ghost use Rattle.matrix.specs.Matrix.{Matrix, put_cell, swap_cells, insert_row, insert_col, remove_row, remove_col, row, col, over};
ghost use Rattle.matrix.specs.Rules.{insert_row_answer, insert_col_answer, remove_row_answer, remove_col_answer, delete_row_answer, delete_col_answer, put_answer, swap_answer};
ghost use Rattle.matrix.specs.Axes.{along, inserted, removed, line_of, insert_along, remove_along, delete_along};
ghost use Rattle.grid.specs.Grids.{matrix, limits, stored, Stays};

use crate::grid::Grid;
use cells::refusal::Refusal;
use flat::calls;
use matrix::axis::Axis;

impl<'a, T: Copy> Grid<'a, T> {
    // The cell at (r, c) becomes x.
    pub fn put(&mut self, r: usize, c: usize, x: T) -> Result<(), Refusal>
        ensures answer { result ≡ put_answer r c (matrix self.old) }
        ensures effect { matrix self.new ≡ answered result (put_cell r c x (matrix self.old)) (matrix self.old) }
        ensures stays { Stays self.old self.new }
        ensures kept { Kept result (stored self.old) (stored self.new) }
    {
        let shape = self.shape;
        calls::put(self.cells, shape, r, c, x)
    }

    // The cells at two places change places.
    pub fn swap(&mut self, a: (usize, usize), b: (usize, usize)) -> Result<(), Refusal>
        ensures answer { result ≡ swap_answer a b (matrix self.old) }
        ensures effect { matrix self.new ≡ answered result (swap_cells a b (matrix self.old)) (matrix self.old) }
        ensures stays { Stays self.old self.new }
        ensures kept { Kept result (stored self.old) (stored self.new) }
    {
        let shape = self.shape;
        calls::swap(self.cells, shape, a, b)
    }

    // The line becomes line i along the axis; later lines move by one.
    pub fn insert(&mut self, axis: Axis, i: usize, line: &[T]) -> Result<(), Refusal>
        ensures answer { result ≡ insert_along (limits self.old) axis i line.now (matrix self.old) }
        ensures effect { matrix self.new ≡ answered result (inserted axis i line.now (matrix self.old)) (matrix self.old) }
        ensures stays { Stays self.old self.new }
        ensures kept { Kept result (stored self.old) (stored self.new) }
    {
        let shape = self.shape;
        self.shape = calls::insert(self.cells, shape, axis, i, line)?;
        Ok(())
    }

    // Line i along the axis goes, its cells into the first cells of the memory.
    pub fn remove(&mut self, axis: Axis, i: usize, memory: &mut [T]) -> Result<(), Refusal>
        ensures answer { result ≡ remove_along axis i memory.old (matrix self.old) }
        ensures effect { matrix self.new ≡ answered result (removed axis i (matrix self.old)) (matrix self.old) }
        ensures line { memory.new ≡ answered result (over (line_of axis i (matrix self.old)) memory.old) memory.old }
        ensures stays { Stays self.old self.new }
        ensures kept { Kept result (stored self.old) (stored self.new) }
    {
        let shape = self.shape;
        self.shape = calls::remove(self.cells, shape, axis, i, memory)?;
        Ok(())
    }

    // The line becomes the last along the axis.
    pub fn push(&mut self, axis: Axis, line: &[T]) -> Result<(), Refusal>
        ensures answer { result ≡ insert_along (limits self.old) axis (along axis (matrix self.old)).rows line.now (matrix self.old) }
        ensures effect { matrix self.new ≡ answered result (inserted axis (along axis (matrix self.old)).rows line.now (matrix self.old)) (matrix self.old) }
        ensures stays { Stays self.old self.new }
        ensures kept { Kept result (stored self.old) (stored self.new) }
    {
        let last = self.lines(axis);
        self.insert(axis, last, line)
    }

    // The last line along the axis goes, its cells into the first cells of the memory.
    pub fn pop(&mut self, axis: Axis, memory: &mut [T]) -> Result<(), Refusal>
        ensures answer { result ≡ remove_along axis ((along axis (matrix self.old)).rows - 1) memory.old (matrix self.old) }
        ensures effect { matrix self.new ≡ answered result (removed axis ((along axis (matrix self.old)).rows - 1) (matrix self.old)) (matrix self.old) }
        ensures line { memory.new ≡ answered result (over (line_of axis ((along axis (matrix self.old)).rows - 1) (matrix self.old)) memory.old) memory.old }
        ensures stays { Stays self.old self.new }
        ensures kept { Kept result (stored self.old) (stored self.new) }
    {
        let last = self.lines(axis).saturating_sub(1);
        self.remove(axis, last, memory)
    }

    // Line i along the axis goes, and nobody takes it.
    pub fn delete(&mut self, axis: Axis, i: usize) -> Result<(), Refusal>
        ensures answer { result ≡ delete_along axis i (matrix self.old) }
        ensures effect { matrix self.new ≡ answered result (removed axis i (matrix self.old)) (matrix self.old) }
        ensures stays { Stays self.old self.new }
        ensures kept { Kept result (stored self.old) (stored self.new) }
    {
        let shape = self.shape;
        self.shape = calls::delete(self.cells, shape, axis, i)?;
        Ok(())
    }

    // kept: rows and columns by the names that users of a grid know, a line each over the call along an axis.
    // The line becomes row i; later rows move by one.
    pub fn insert_row(&mut self, i: usize, line: &[T]) -> Result<(), Refusal>
        ensures answer { result ≡ insert_row_answer (limits self.old) i line.now (matrix self.old) }
        ensures effect { matrix self.new ≡ answered result (insert_row i line.now (matrix self.old)) (matrix self.old) }
        ensures stays { Stays self.old self.new }
        ensures kept { Kept result (stored self.old) (stored self.new) }
    {
        self.insert(Axis::Row, i, line)
    }

    // The line becomes column i; later columns move by one.
    pub fn insert_col(&mut self, i: usize, line: &[T]) -> Result<(), Refusal>
        ensures answer { result ≡ insert_col_answer (limits self.old) i line.now (matrix self.old) }
        ensures effect { matrix self.new ≡ answered result (insert_col i line.now (matrix self.old)) (matrix self.old) }
        ensures stays { Stays self.old self.new }
        ensures kept { Kept result (stored self.old) (stored self.new) }
    {
        self.insert(Axis::Col, i, line)
    }

    // Row i goes, its cells into the first cells of the memory.
    pub fn remove_row(&mut self, i: usize, memory: &mut [T]) -> Result<(), Refusal>
        ensures answer { result ≡ remove_row_answer i memory.old (matrix self.old) }
        ensures effect { matrix self.new ≡ answered result (remove_row i (matrix self.old)) (matrix self.old) }
        ensures line { memory.new ≡ answered result (over (row i (matrix self.old)) memory.old) memory.old }
        ensures stays { Stays self.old self.new }
        ensures kept { Kept result (stored self.old) (stored self.new) }
    {
        self.remove(Axis::Row, i, memory)
    }

    // Column i goes, its cells into the first cells of the memory.
    pub fn remove_col(&mut self, i: usize, memory: &mut [T]) -> Result<(), Refusal>
        ensures answer { result ≡ remove_col_answer i memory.old (matrix self.old) }
        ensures effect { matrix self.new ≡ answered result (remove_col i (matrix self.old)) (matrix self.old) }
        ensures line { memory.new ≡ answered result (over (col i (matrix self.old)) memory.old) memory.old }
        ensures stays { Stays self.old self.new }
        ensures kept { Kept result (stored self.old) (stored self.new) }
    {
        self.remove(Axis::Col, i, memory)
    }

    // The line becomes the last row.
    pub fn push_row(&mut self, line: &[T]) -> Result<(), Refusal>
        ensures answer { result ≡ insert_row_answer (limits self.old) (matrix self.old).rows line.now (matrix self.old) }
        ensures effect { matrix self.new ≡ answered result (insert_row (matrix self.old).rows line.now (matrix self.old)) (matrix self.old) }
        ensures stays { Stays self.old self.new }
        ensures kept { Kept result (stored self.old) (stored self.new) }
    {
        self.push(Axis::Row, line)
    }

    // The line becomes the last column.
    pub fn push_col(&mut self, line: &[T]) -> Result<(), Refusal>
        ensures answer { result ≡ insert_col_answer (limits self.old) (matrix self.old).cols line.now (matrix self.old) }
        ensures effect { matrix self.new ≡ answered result (insert_col (matrix self.old).cols line.now (matrix self.old)) (matrix self.old) }
        ensures stays { Stays self.old self.new }
        ensures kept { Kept result (stored self.old) (stored self.new) }
    {
        self.push(Axis::Col, line)
    }

    // The last row goes, its cells into the first cells of the memory.
    pub fn pop_row(&mut self, memory: &mut [T]) -> Result<(), Refusal>
        ensures answer { result ≡ remove_row_answer ((matrix self.old).rows - 1) memory.old (matrix self.old) }
        ensures effect { matrix self.new ≡ answered result (remove_row ((matrix self.old).rows - 1) (matrix self.old)) (matrix self.old) }
        ensures line { memory.new ≡ answered result (over (row ((matrix self.old).rows - 1) (matrix self.old)) memory.old) memory.old }
        ensures stays { Stays self.old self.new }
        ensures kept { Kept result (stored self.old) (stored self.new) }
    {
        self.pop(Axis::Row, memory)
    }

    // The last column goes, its cells into the first cells of the memory.
    pub fn pop_col(&mut self, memory: &mut [T]) -> Result<(), Refusal>
        ensures answer { result ≡ remove_col_answer ((matrix self.old).cols - 1) memory.old (matrix self.old) }
        ensures effect { matrix self.new ≡ answered result (remove_col ((matrix self.old).cols - 1) (matrix self.old)) (matrix self.old) }
        ensures line { memory.new ≡ answered result (over (col ((matrix self.old).cols - 1) (matrix self.old)) memory.old) memory.old }
        ensures stays { Stays self.old self.new }
        ensures kept { Kept result (stored self.old) (stored self.new) }
    {
        self.pop(Axis::Col, memory)
    }

    // kept: a bool, since these two names have the original's answers; `delete` says which refusal it is.
    // Row i goes, and nobody takes it; false where there is none.
    pub fn delete_row(&mut self, i: usize) -> bool
        ensures answer { result ≡ is_ok (delete_row_answer i (matrix self.old)) }
        ensures effect { matrix self.new ≡ (if result then remove_row i (matrix self.old) else matrix self.old) }
        ensures stays { Stays self.old self.new }
        ensures kept { (if result then stored self.old else stored self.new) ≡ stored self.old }
    {
        self.delete(Axis::Row, i).is_ok()
    }

    // Column i goes, and nobody takes it; false where there is none.
    pub fn delete_col(&mut self, i: usize) -> bool
        ensures answer { result ≡ is_ok (delete_col_answer i (matrix self.old)) }
        ensures effect { matrix self.new ≡ (if result then remove_col i (matrix self.old) else matrix self.old) }
        ensures stays { Stays self.old self.new }
        ensures kept { (if result then stored self.old else stored self.new) ≡ stored self.old }
    {
        self.delete(Axis::Col, i).is_ok()
    }
}
