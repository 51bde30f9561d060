// Calls of a host program in C or Rust on its own bytes as a grid: the numbers of its size come with each call.
// Free, after an accepted call, are the flat cells beyond those of the matrix. All else is determined.
// kept: sides and order come one by one and as plain numbers, since C hands them so and any of them is to be checked.
#![tactic(auto)]

ghost use Rattle.std.specs.Prelude.{◌≡◌, ℕ, length, IfOk};
ghost use Rattle.cells.specs.Refusals.{verdict};
ghost use Rattle.matrix.specs.Matrix.{insert_row, insert_col, remove_row, remove_col, row, col, over, flip_rows, flip_cols};
ghost use Rattle.matrix.specs.Shapes.{form};
ghost use Rattle.matrix.specs.Makings.{new_form};
ghost use Rattle.matrix.specs.Rules.{grid_limits, new_answer, insert_row_answer, insert_col_answer, remove_row_answer, remove_col_answer};
ghost use Rattle.matrix.specs.Axes.{inserted, removed, line_of, flipped, insert_along, remove_along};
ghost use Rattle.host.specs.Hosts.{ordered, hosted, Means, said, code, coded};

use cells::refusal::Refusal;
use flat::calls;
use matrix::axis::Axis;
use matrix::making::{new_check, new_shape};
use matrix::shape::{Order, Shape};

// The shape that a host's numbers mean over n cells.
fn shape_of(n: usize, rows: usize, cols: usize, order: u8) -> Result<Shape, Refusal>
    ensures answer { verdict result ≡ new_answer n rows cols }
    ensures form { IfOk result (λ shape. form shape ≡ new_form n rows cols (ordered order)) }
{
    new_check(n, rows, cols)?;
    let order = if order == 0 {
        Order::RowMajor
    } else {
        Order::ColumnMajor
    };
    Ok(new_shape(n, rows, cols, order))
}

// 0 for yes, else the number of the refusal.
fn code<A: Copy>(answer: Result<A, Refusal>) -> u32
    ensures answer { result ≡ code answer }
{
    match answer {
        Ok(_) => 0,
        Err(refusal) => refusal.number(),
    }
}

// The line becomes line i along the axis.
fn insert(
    axis: Axis,
    cells: &mut [u8],
    rows: usize,
    cols: usize,
    order: u8,
    i: usize,
    line: &[u8],
) -> u32
    ensures answer { result ≡ code (said (length cells.old) rows cols (insert_along (grid_limits (length cells.old)) axis i line.now (hosted rows cols order cells.old))) }
    ensures effect { let m = hosted rows cols order cells.old in Means order cells.new (coded result (inserted axis i line.now m) m) }
    ensures kept { coded result cells.old cells.new ≡ cells.old }
{
    match shape_of(cells.len(), rows, cols, order) {
        Ok(shape) => code(calls::insert(cells, shape, axis, i, line)),
        Err(refusal) => refusal.number(),
    }
}

// Line i along the axis goes, into the first cells of the memory.
fn remove(
    axis: Axis,
    cells: &mut [u8],
    rows: usize,
    cols: usize,
    order: u8,
    i: usize,
    memory: &mut [u8],
) -> u32
    ensures answer { result ≡ code (said (length cells.old) rows cols (remove_along axis i memory.old (hosted rows cols order cells.old))) }
    ensures effect { let m = hosted rows cols order cells.old in Means order cells.new (coded result (removed axis i m) m) }
    ensures line { memory.new ≡ coded result (over (line_of axis i (hosted rows cols order cells.old)) memory.old) memory.old }
    ensures kept { coded result cells.old cells.new ≡ cells.old }
{
    match shape_of(cells.len(), rows, cols, order) {
        Ok(shape) => code(calls::remove(cells, shape, axis, i, memory)),
        Err(refusal) => refusal.number(),
    }
}

// The last line along the axis comes first.
fn flip(axis: Axis, cells: &mut [u8], rows: usize, cols: usize, order: u8) -> u32
    ensures answer { result ≡ code (new_answer (length cells.old) rows cols) }
    ensures effect { let m = hosted rows cols order cells.old in hosted rows cols order cells.new ≡ coded result (flipped axis m) m }
    ensures kept { coded result cells.old cells.new ≡ cells.old }
{
    match shape_of(cells.len(), rows, cols, order) {
        Ok(shape) => {
            calls::flip(cells, shape, axis);
            0
        }
        Err(refusal) => refusal.number(),
    }
}

// kept: rows and columns by names of their own, since C has no `Axis`; each is a line over the call along an axis.
// The line becomes row `at`; later rows move by one.
#[unsafe(no_mangle)]
pub extern "C" fn mh_insert_row(
    cells: &mut [u8],
    rows: usize,
    cols: usize,
    order: u8,
    at: usize,
    line: &[u8],
) -> u32
    ensures answer { result ≡ code (said (length cells.old) rows cols (insert_row_answer (grid_limits (length cells.old)) at line.now (hosted rows cols order cells.old))) }
    ensures effect { let m = hosted rows cols order cells.old in Means order cells.new (coded result (insert_row at line.now m) m) }
    ensures kept { coded result cells.old cells.new ≡ cells.old }
{
    insert(Axis::Row, cells, rows, cols, order, at, line)
}

// The line becomes column `at`; later columns move by one.
#[unsafe(no_mangle)]
pub extern "C" fn mh_insert_col(
    cells: &mut [u8],
    rows: usize,
    cols: usize,
    order: u8,
    at: usize,
    line: &[u8],
) -> u32
    ensures answer { result ≡ code (said (length cells.old) rows cols (insert_col_answer (grid_limits (length cells.old)) at line.now (hosted rows cols order cells.old))) }
    ensures effect { let m = hosted rows cols order cells.old in Means order cells.new (coded result (insert_col at line.now m) m) }
    ensures kept { coded result cells.old cells.new ≡ cells.old }
{
    insert(Axis::Col, cells, rows, cols, order, at, line)
}

// Row `at` goes, its cells into the first cells of the memory.
#[unsafe(no_mangle)]
pub extern "C" fn mh_remove_row(
    cells: &mut [u8],
    rows: usize,
    cols: usize,
    order: u8,
    at: usize,
    memory: &mut [u8],
) -> u32
    ensures answer { result ≡ code (said (length cells.old) rows cols (remove_row_answer at memory.old (hosted rows cols order cells.old))) }
    ensures effect { let m = hosted rows cols order cells.old in Means order cells.new (coded result (remove_row at m) m) }
    ensures line { memory.new ≡ coded result (over (row at (hosted rows cols order cells.old)) memory.old) memory.old }
    ensures kept { coded result cells.old cells.new ≡ cells.old }
{
    remove(Axis::Row, cells, rows, cols, order, at, memory)
}

// Column `at` goes, its cells into the first cells of the memory.
#[unsafe(no_mangle)]
pub extern "C" fn mh_remove_col(
    cells: &mut [u8],
    rows: usize,
    cols: usize,
    order: u8,
    at: usize,
    memory: &mut [u8],
) -> u32
    ensures answer { result ≡ code (said (length cells.old) rows cols (remove_col_answer at memory.old (hosted rows cols order cells.old))) }
    ensures effect { let m = hosted rows cols order cells.old in Means order cells.new (coded result (remove_col at m) m) }
    ensures line { memory.new ≡ coded result (over (col at (hosted rows cols order cells.old)) memory.old) memory.old }
    ensures kept { coded result cells.old cells.new ≡ cells.old }
{
    remove(Axis::Col, cells, rows, cols, order, at, memory)
}

// The last row comes first.
#[unsafe(no_mangle)]
pub extern "C" fn mh_flip_rows(cells: &mut [u8], rows: usize, cols: usize, order: u8) -> u32
    ensures answer { result ≡ code (new_answer (length cells.old) rows cols) }
    ensures effect { let m = hosted rows cols order cells.old in hosted rows cols order cells.new ≡ coded result (flip_rows m) m }
    ensures kept { coded result cells.old cells.new ≡ cells.old }
{
    flip(Axis::Row, cells, rows, cols, order)
}

// The last column comes first.
#[unsafe(no_mangle)]
pub extern "C" fn mh_flip_cols(cells: &mut [u8], rows: usize, cols: usize, order: u8) -> u32
    ensures answer { result ≡ code (new_answer (length cells.old) rows cols) }
    ensures effect { let m = hosted rows cols order cells.old in hosted rows cols order cells.new ≡ coded result (flip_cols m) m }
    ensures kept { coded result cells.old cells.new ≡ cells.old }
{
    flip(Axis::Col, cells, rows, cols, order)
}
