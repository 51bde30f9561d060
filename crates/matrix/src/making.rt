// Making a matrix of flat cells, in two calls: a check that may refuse, and a shape that is empty where it does.
// kept: sides and an order come one by one, since a `Shape` has invariants, and these numbers are still to be checked.
ghost use Rattle.std.specs.Prelude.{◌≡◌};
ghost use Rattle.matrix.specs.Shapes.{form};
ghost use Rattle.matrix.specs.Makings.{from_vec_form, new_form};
ghost use Rattle.matrix.specs.Rules.{from_vec_answer, new_answer};

use crate::limits::{CELLS, SIDE};
use crate::shape::{Order, Shape};
use cells::refusal::Refusal;

// Whether n flat cells at the start of a memory make a grid of that many columns.
pub fn from_vec_check(memory: usize, n: usize, cols: usize) -> Result<(), Refusal>
    ensures answer { result ≡ from_vec_answer memory n cols }
{
    if CELLS < memory {
        return Err(Refusal::Memory);
    }
    if n == 0 {
        return Ok(());
    }
    if cols == 0 || n % cols != 0 {
        return Err(Refusal::Ragged);
    }
    new_check(memory, n / cols, cols)
}

// Whether a memory has room for rows × cols cells.
pub fn new_check(memory: usize, rows: usize, cols: usize) -> Result<(), Refusal>
    ensures answer { result ≡ new_answer memory rows cols }
{
    if CELLS < memory {
        return Err(Refusal::Memory);
    }
    if rows == 0 || cols == 0 {
        return Ok(());
    }
    if SIDE < rows || SIDE < cols {
        return Err(Refusal::Side);
    }
    if memory < rows * cols {
        return Err(Refusal::Full);
    }
    Ok(())
}

// The shape of n cells in lines of `cols`, empty where the check refuses.
pub fn vec_shape(memory: usize, n: usize, cols: usize, order: Order) -> Shape
    ensures answer { form result ≡ from_vec_form memory n cols order }
{
    if n == 0 || from_vec_check(memory, n, cols).is_err() {
        return Shape::empty(order);
    }
    Shape {
        rows: n / cols,
        cols,
        order,
    }
}

// The shape of rows × cols, empty where the check refuses.
pub fn new_shape(memory: usize, rows: usize, cols: usize, order: Order) -> Shape
    ensures answer { form result ≡ new_form memory rows cols order }
{
    if rows == 0 || cols == 0 || new_check(memory, rows, cols).is_err() {
        return Shape::empty(order);
    }
    Shape { rows, cols, order }
}
