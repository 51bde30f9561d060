// What a look is, how it is made, and what it is asked.
ghost use Rattle.std.specs.Prelude.{◌≡◌, ℕ, ◌*◌, ◌&&◌, ◌==◌, option_copied, IfSome};
ghost use Rattle.matrix.specs.Matrix.{Matrix, row, col};
ghost use Rattle.matrix.specs.Rules.{from_vec};
ghost use Rattle.matrix.specs.Axes.{along, line_of};
ghost use Rattle.looks.specs.Looks.{matrix, order, row_part, col_part, part_along, Over, PartAt};

use flat::calls;
use matrix::axis::Axis;
use matrix::limits::CELLS;
use matrix::making::vec_shape;
use matrix::shape::{Order, Shape};

// A matrix over lent cells that are read and never written. It stands for the cells that its shape names, where there are as
// many; no call makes one with fewer. Flat cells beyond R × C are none of its own.
#[derive(Drop)]
pub struct Look<'a, T> {
    cells: &'a [T],
    shape: Shape,
}

impl<'a, T> Look<'a, T> {
    // The n flat cells at the start of those lent, in lines of `cols` columns; empty where `from_vec_check` refuses.
    pub fn from_vec_with_order(cells: &'a [T], n: usize, cols: usize, order: Order) -> Look<'a, T>
        ensures effect { matrix result ≡ from_vec order n cols cells.now }
        ensures over { Over order cells.entry result }
    {
        let shape = vec_shape(cells.len(), n, cols, order);
        let first = &cells[..cells.len().min(CELLS)];
        Look {
            cells: first,
            shape,
        }
    }

    pub fn size(&self) -> (usize, usize)
        ensures answer { result ≡ ((matrix self.now).rows, (matrix self.now).cols) }
    {
        let shape = self.shape.fitted(self.cells.len());
        (shape.rows, shape.cols)
    }

    pub fn rows(&self) -> usize
        ensures answer { result ≡ (matrix self.now).rows }
    {
        let (rows, _) = self.size();
        rows
    }

    pub fn cols(&self) -> usize
        ensures answer { result ≡ (matrix self.now).cols }
    {
        let (_, cols) = self.size();
        cols
    }

    pub fn order(&self) -> Order
        ensures answer { result ≡ order self.now }
    {
        self.shape.order
    }

    pub fn is_empty(&self) -> bool
        ensures answer { result ≡ ((matrix self.now).rows == 0 && (matrix self.now).cols == 0) }
    {
        let (rows, cols) = self.size();
        rows == 0 && cols == 0
    }

    // Row r of a row-major matrix, as the part of the flat cells where it lies; absent past the last row, and in the other order.
    pub fn row(&self, r: usize) -> Option<&'a [T]>
        ensures answer { option_copied result ≡ row_part r (order self.now) (matrix self.now) self.now.cells.now }
        ensures line { IfSome result (λ part. part.now ≡ row r (matrix self.now)) }
        ensures place { IfSome result (λ part. PartAt T.row (r * (matrix self.now).cols) self.now.cells part) }
    {
        self.line_along(Axis::Row, r)
    }

    // The same of a column of a column-major matrix.
    pub fn col(&self, c: usize) -> Option<&'a [T]>
        ensures answer { option_copied result ≡ col_part c (order self.now) (matrix self.now) self.now.cells.now }
        ensures line { IfSome result (λ part. part.now ≡ col c (matrix self.now)) }
        ensures place { IfSome result (λ part. PartAt T.row (c * (matrix self.now).rows) self.now.cells part) }
    {
        self.line_along(Axis::Col, c)
    }

    // Line i along the axis, where such lines lie one after the other.
    fn line_along(&self, axis: Axis, i: usize) -> Option<&'a [T]>
        ensures answer { option_copied result ≡ part_along axis i (order self.now) (matrix self.now) self.now.cells.now }
        ensures line { IfSome result (λ part. part.now ≡ line_of axis i (matrix self.now)) }
        ensures place { IfSome result (λ part. PartAt T.row (i * (along axis (matrix self.now)).cols) self.now.cells part) }
    {
        let shape = self.shape.along(axis).fitted(self.cells.len());
        match shape.order {
            Order::RowMajor if i < shape.rows => {
                let start = i * shape.cols;
                Some(&self.cells[start..start + shape.cols])
            }
            _ => None,
        }
    }
}

impl<'a, T: Copy> Look<'a, T> {
    // The cell at (r, c), absent outside the matrix.
    pub fn get(&self, r: usize, c: usize) -> Option<T>
        ensures answer { result ≡ (matrix self.now).cell r c }
    {
        calls::get(self.cells, self.shape, r, c)
    }
}
