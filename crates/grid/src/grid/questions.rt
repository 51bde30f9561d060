// What a grid is asked, and how it ends.
ghost use Rattle.std.specs.Prelude.{◌≡◌, ℕ, ◌*◌, ◌&&◌, length, ◌==◌};
ghost use Rattle.matrix.specs.Matrix.{Matrix, over};
ghost use Rattle.matrix.specs.Shapes.{flat};
ghost use Rattle.matrix.specs.Axes.{along};
ghost use Rattle.grid.specs.Grids.{matrix, limits, order};

use crate::grid::Grid;
use flat::calls;
use matrix::axis::Axis;
use matrix::limits::Limits;
use matrix::shape::Order;

impl<'a, T: Copy> Grid<'a, T> {
    pub fn size(&self) -> (usize, usize)
        ensures answer { result ≡ ((matrix self.now).rows, (matrix self.now).cols) }
    {
        let shape = self.shape.fitted(self.cells.len());
        (shape.rows, shape.cols)
    }

    // How many lines there are along the axis.
    pub fn lines(&self, axis: Axis) -> usize
        ensures answer { result ≡ (along axis (matrix self.now)).rows }
    {
        let (rows, cols) = self.size();
        let (lines, _) = axis.pair(rows, cols);
        lines
    }

    // kept: the two counts by the names that users of a grid know.
    pub fn rows(&self) -> usize
        ensures answer { result ≡ (matrix self.now).rows }
    {
        self.lines(Axis::Row)
    }

    pub fn cols(&self) -> usize
        ensures answer { result ≡ (matrix self.now).cols }
    {
        self.lines(Axis::Col)
    }

    pub fn order(&self) -> Order
        ensures answer { result ≡ order self.now }
    {
        self.shape.order
    }

    pub fn is_empty(&self) -> bool
        ensures answer { result ≡ ((matrix self.now).rows == 0 && (matrix self.now).cols == 0) }
    {
        let (rows, cols) = self.size();
        rows == 0 && cols == 0
    }

    // The most rows and columns, and the most cells.
    pub fn limits(&self) -> Limits
        ensures answer { result ≡ limits self.now }
    {
        calls::limits_over(self.cells.len())
    }

    // The cell at (r, c), absent outside the matrix.
    pub fn get(&self, r: usize, c: usize) -> Option<T>
        ensures answer { result ≡ (matrix self.now).cell r c }
    {
        calls::get(self.cells, self.shape, r, c)
    }

    // kept: the very memory that was lent goes back, with the free cells past the count.
    // Ends the grid: its memory, and how many flat cells at its start are the grid's.
    pub fn into_vec(self) -> (&'a mut [T], usize)
        ensures count { result.1 ≡ (matrix self.entry).rows * (matrix self.entry).cols }
        ensures flat { result.0.now ≡ over (flat (order self.entry) (matrix self.entry)) result.0.now }
        ensures cells { result.0.now ≡ self.entry.cells.now }
        ensures memory { result.0.ghost_name ≡ self.entry.cells.ghost_name }
    {
        let Grid { cells, shape } = self;
        let shape = shape.fitted(cells.len());
        (cells, shape.rows * shape.cols)
    }
}
