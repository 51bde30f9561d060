// What a shape answers.
ghost use Rattle.std.specs.Prelude.{◌≡◌, ℕ, ◌*◌, ◌≤◌};
ghost use Rattle.matrix.specs.Shapes.{Form, form, other, turned_form, vacant, fitted};
ghost use Rattle.matrix.specs.Axes.{along_form};

use crate::axis::Axis;
use crate::shape::{Order, Shape};

impl Order {
    // kept: no derive gives the other of two variants; an `impl` of `Not` would have this body under `!order`, and name nothing.
    pub fn counterpart(self) -> Order
        ensures answer { result ≡ other self }
    {
        match self {
            Order::RowMajor => Order::ColumnMajor,
            Order::ColumnMajor => Order::RowMajor,
        }
    }
}

impl Shape {
    // No rows and no columns.
    pub fn empty(order: Order) -> Shape
        ensures answer { form result ≡ vacant order }
    {
        Shape {
            rows: 0,
            cols: 0,
            order,
        }
    }

    // Rows for columns and the other order: the same flat cells, read as the matrix turned.
    pub fn turned(self) -> Shape
        ensures answer { form result ≡ turned_form (form self) }
    {
        Shape {
            rows: self.cols,
            cols: self.rows,
            order: self.order.counterpart(),
        }
    }

    // The shape whose rows are the lines along the axis: this one, or this one turned.
    pub fn along(self, axis: Axis) -> Shape
        ensures answer { form result ≡ along_form axis (form self) }
    {
        match axis {
            Axis::Row => self,
            Axis::Col => self.turned(),
        }
    }

    // This shape where n cells are enough for it, else the empty one.
    pub fn fitted(self, n: usize) -> Shape
        ensures answer { form result ≡ fitted n (form self) }
        ensures fits { result.rows * result.cols ≤ n }
    {
        if self.rows * self.cols <= n {
            self
        } else {
            Shape::empty(self.order)
        }
    }
}
