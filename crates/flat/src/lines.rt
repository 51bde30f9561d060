// A row call on flat cells, in either order: the cells of a row lie side by side in a row-major matrix, and one in each
// column of a column-major one. Each call moves a cell at most once.
ghost use Rattle.std.specs.Prelude.{◌≡◌, ℕ, ◌+◌, ◌-◌, ◌*◌, ◌<◌, ◌≤◌, length};
ghost use Rattle.matrix.specs.Matrix.{Matrix, left_across, insert_row, insert_col, space_rows, remove_row, remove_col, flip_rows, rotate_half, row, over};
ghost use Rattle.matrix.specs.Shapes.{form, laid, rowwise, place, inserted_form, spaced_form, deleted_form};

use crate::moves::{copy, exchange, part, reverse, shift, slide, write};
use matrix::checks::left_across;
use matrix::shape::{Order, Shape};

// The flat place of a cell inside.
pub(crate) fn place_of(shape: Shape, r: usize, c: usize) -> usize
    requires row { r < shape.rows }
    requires col { c < shape.cols }
    ensures answer { result ≡ place shape.order shape.rows shape.cols r c }
    ensures inside { result < shape.rows * shape.cols }
{
    // kept: the match is what the two orders are, and no step to hand over
    match shape.order {
        Order::RowMajor => r * shape.cols + c,
        Order::ColumnMajor => c * shape.rows + r,
    }
}

// How many cells stand from place i of line c on to the next line's place i, or to the end: n, but for the last line.
// kept: a `min` with how many cells are left would need a proof about products
fn between(c: usize, lines: usize, n: usize, i: usize) -> usize
    requires line { c < lines }
    requires at { i ≤ n }
    requires fits { lines ≤ 256 }
    ensures whole { c + 1 < lines → result ≡ n }
    ensures last { c + 1 ≡ lines → result ≡ n - i }
{
    if c + 1 < lines { n } else { n - i }
}

// Each line of n cells takes one more at i, a cell of `line`: the cells between two new ones move up at once, the last first.
fn widen<T: Copy>(s: &mut [T], n: usize, i: usize, line: &[T])
    requires at { i ≤ n }
    requires some { 0 < length line.now }
    requires tall { n + 1 ≤ 256 }
    requires wide { length line.now ≤ 256 }
    requires room { length line.now * (n + 1) ≤ length s.old }
    ensures effect { rowwise (length line.now) (n + 1) s.new ≡ insert_col i line.now (rowwise (length line.now) n s.old) }
{
    let lines = line.len();
    // kept: by `line.iter().enumerate().rev()` the loop's invariant is on the items still to come, and no longer names the
    // line; and no chunk of the slice holds both places of a stretch, which moves into where the next one stood
    for c in (0..lines).rev() {
        let from = c * n + i;
        let at = c * (n + 1) + i;
        let some = between(c, lines, n, i);
        shift(s, from, at + 1, some);
        write(s, at, line[c]);
    }
}

// Each of the lines of n cells loses the one at i: the cells between two that go move down at once, the first first.
fn narrow<T: Copy>(s: &mut [T], n: usize, lines: usize, i: usize)
    requires at { i < n }
    requires some { 0 < lines }
    requires tall { n ≤ 256 }
    requires wide { lines ≤ 256 }
    requires room { lines * n ≤ length s.old }
    ensures effect { rowwise (left_across n lines) (n - 1) s.new ≡ remove_col i (rowwise lines n s.old) }
{
    // kept: a stretch moves into where the one before it stood, so that no chunk of the slice holds both its places
    for c in 0..lines {
        let from = c * n + i + 1;
        let to = c * (n - 1) + i;
        let some = between(c, lines, n - 1, i);
        shift(s, from, to, some);
    }
}

// The line becomes row i: what lies after it moves up, or each column takes a cell.
pub(crate) fn insert_line<T: Copy>(s: &mut [T], shape: Shape, i: usize, line: &[T]) -> Shape
    requires at { i ≤ shape.rows }
    requires some { 0 < length line.now }
    requires fits { 0 < shape.rows → length line.now ≡ shape.cols }
    requires tall { shape.rows + 1 ≤ 256 }
    requires wide { length line.now ≤ 256 }
    requires room { (shape.rows + 1) * length line.now ≤ length s.old }
    ensures form { form result ≡ inserted_form (length line.now) (form shape) }
    ensures effect { laid (form result) s.new ≡ insert_row i line.now (laid (form shape) s.old) }
{
    let rows = shape.rows;
    let cols = line.len();
    // kept: all later rows move up at once, or each column by itself: one loop over both would need a length and a stride of each
    // run, and be no plainer
    match shape.order {
        Order::RowMajor => {
            let from = i * cols;
            slide(s, from, from + cols, rows * cols - from);
            copy(s, from, line);
        }
        Order::ColumnMajor => widen(s, rows, i, line),
    }
    Shape {
        rows: rows + 1,
        cols,
        order: shape.order,
    }
}

// n rows of x come in at i: what lies after them moves up, or each column, the last first, moves up and is parted.
pub(crate) fn space_lines<T: Copy>(s: &mut [T], shape: Shape, i: usize, n: usize, x: T) -> Shape
    requires at { i ≤ shape.rows }
    requires some { 0 < shape.cols }
    requires tall { shape.rows + n ≤ 256 }
    requires room { (shape.rows + n) * shape.cols ≤ length s.old }
    ensures form { form result ≡ spaced_form n (form shape) }
    ensures effect { laid (form result) s.new ≡ space_rows i n x (laid (form shape) s.old) }
{
    let rows = shape.rows;
    let cols = shape.cols;
    match shape.order {
        Order::RowMajor => {
            let from = i * cols;
            part(s, from, from, rows * cols - from, 0, n * cols, x);
        }
        Order::ColumnMajor => {
            for c in (0..cols).rev() {
                part(s, c * rows, c * (rows + n), rows, i, n, x);
            }
        }
    }
    Shape {
        rows: rows + n,
        cols,
        order: shape.order,
    }
}

// Row i, copied into the memory's first cells.
// kept: `room` stands in four contracts; a lent view with it as a ghost field proves, and is made and named at each call
pub(crate) fn copy_line<T: Copy>(s: &[T], shape: Shape, i: usize, memory: &mut [T])
    requires at { i < shape.rows }
    requires long { shape.cols ≤ length memory.old }
    requires room { shape.rows * shape.cols ≤ length s.now }
    ensures line { memory.new ≡ over (row i (laid (form shape) s.now)) memory.old }
{
    let rows = shape.rows;
    let cols = shape.cols;
    // kept: a row is one run of cells, or a cell of each column: one loop over both would take the run cell by cell, 1.3 times
    // slower at 16 × 16
    match shape.order {
        Order::RowMajor => copy(memory, 0, &s[i * cols..i * cols + cols]),
        Order::ColumnMajor => {
            // kept: a place in `s` beside it: after a `zip` with `iter_mut` a proof knows nothing of what was written
            for (c, x) in memory[..cols].iter_mut().enumerate() {
                *x = s[c * rows + i];
            }
        }
    }
}

// Row i goes: what lies after it moves down, or each column loses a cell.
pub(crate) fn delete_line<T: Copy>(s: &mut [T], shape: Shape, i: usize) -> Shape
    requires at { i < shape.rows }
    requires room { shape.rows * shape.cols ≤ length s.old }
    ensures form { form result ≡ deleted_form (form shape) }
    ensures effect { laid (form result) s.new ≡ remove_row i (laid (form shape) s.old) }
{
    let rows = shape.rows;
    let cols = shape.cols;
    // kept: all later rows move down at once, or each column by itself: one loop over both would need a length and a stride of
    // each run, and be no plainer
    match shape.order {
        Order::RowMajor => {
            let from = i * cols;
            slide(s, from + cols, from, rows * cols - (from + cols));
        }
        Order::ColumnMajor => narrow(s, rows, cols, i),
    }
    Shape {
        rows: rows - 1,
        cols: left_across(rows, cols),
        order: shape.order,
    }
}

// The rows, end for end: rows are exchanged in pairs, or each column is turned round.
pub(crate) fn flip_lines<T: Copy>(s: &mut [T], shape: Shape)
    requires room { shape.rows * shape.cols ≤ length s.old }
    ensures effect { laid (form shape) s.new ≡ flip_rows (laid (form shape) s.old) }
{
    let rows = shape.rows;
    let cols = shape.cols;
    // kept: two rows change places whole, or each column is turned round: one loop over both would need a length and a stride of
    // each run, and be no plainer
    match shape.order {
        Order::RowMajor => {
            // kept: after `chunks_exact_mut` the check knows the slice's length and none of its cells
            for r in 0..rows / 2 {
                exchange(s, r * cols, (rows - 1 - r) * cols, cols);
            }
        }
        Order::ColumnMajor => {
            // kept: after `chunks_exact_mut`, which would hand out each column, the check knows none of the slice's cells
            for c in 0..cols {
                reverse(s, c * rows, rows);
            }
        }
    }
}

// All cells, the last first: a half turn in either order.
pub(crate) fn turn_half<T: Copy>(s: &mut [T], shape: Shape)
    requires room { shape.rows * shape.cols ≤ length s.old }
    ensures effect { laid (form shape) s.new ≡ rotate_half (laid (form shape) s.old) }
{
    reverse(s, 0, shape.rows * shape.cols);
}
