// The calls of a grid on memory and a shape: any memory, any shape, any number gets the fixed answer.
// kept: memory and shape stand apart, since the struct of both is `Grid`, whose calls come down to these; so do a row and a
// column, as a grid's callers have them.
// kept: `kept` and `order` stand on each call, since they speak of what it leaves and not of one value.
ghost use Rattle.std.specs.Prelude.{◌≡◌, ℕ, ◌*◌, ◌≤◌, ◌<◌, length, take, drop, slice_set, Some, IfSome};
ghost use Rattle.std.specs.List.{slice_get};
ghost use Rattle.cells.specs.Refusals.{answered, Kept, verdict, stands};
ghost use Rattle.matrix.specs.Matrix.{Matrix, put_cell, swap_cells, filled, more_rows, inside, rotate_half, over};
ghost use Rattle.matrix.specs.Shapes.{Form, form, fitted, held, laid, place};
ghost use Rattle.matrix.specs.Rules.{grid_limits, put_answer, swap_answer, more_rows_answer};
ghost use Rattle.matrix.specs.Axes.{along, along_form, inserted, expanded, prepended, removed, line_of, flipped, insert_along, more_along, remove_along, delete_along};

use crate::lines::{
    copy_line, delete_line, flip_lines, insert_line, place_of, space_lines, turn_half,
};
use crate::moves::fill_part;
use cells::refusal::Refusal;
use matrix::axis::Axis;
use matrix::checks::{insert_check, more_check, remove_check};
use matrix::limits::{CELLS, Limits, SIDE};
use matrix::shape::Shape;

// The limits of a grid over n cells of memory.
pub fn limits_over(n: usize) -> Limits
    ensures answer { result ≡ grid_limits n }
{
    Limits {
        side: SIDE,
        most: n.min(CELLS),
    }
}

// The memory's first 65,536 cells, or all where there are no more.
pub fn first_cells<T>(cells: &mut [T]) -> &mut [T]
    ensures cells { result.now ≡ take 65536 cells.old }
    ensures memory { length cells.old ≤ 65536 → result.ghost_name ≡ cells.entry.ghost_name }
{
    if CELLS < cells.len() {
        &mut cells[0..CELLS]
    } else {
        cells
    }
}

// The shape that reads the memory along the axis: its rows are the lines along the axis, as many as the memory has room for.
fn rows_along<T>(s: &[T], shape: Shape, axis: Axis) -> Shape
    ensures form { form result ≡ fitted (length s.now) (along_form axis (form shape)) }
    ensures lies { laid (form result) s.now ≡ along axis (held (form shape) s.now) }
    ensures room { result.rows * result.cols ≤ length s.now }
{
    shape.along(axis).fitted(s.len())
}

// The cell at flat place k, absent past the end.
// kept: the library's two calls by one name, with the promise that every reading of a cell rests on.
pub fn peek<T: Copy>(s: &[T], k: usize) -> Option<T>
    ensures answer { result ≡ slice_get s.now k }
{
    s.get(k).copied()
}

// The cell at flat place k becomes x; nothing past the end.
pub fn poke<T: Copy>(s: &mut [T], k: usize, x: T)
    ensures effect { s.new ≡ slice_set s.old k x }
{
    // kept: a test by hand, since after a write through `get_mut` what the slice holds stayed open
    if k < s.len() {
        s[k] = x;
    }
}

// The flat place of the cell at (r, c) in n cells of memory, absent outside.
fn place_in(n: usize, shape: Shape, r: usize, c: usize) -> Option<usize>
    ensures answer { let f = fitted n (form shape) in result ≡ inside f.rows f.cols r c (Some (place f.order f.rows f.cols r c)) }
    ensures within { IfSome result (λ k. k < n) }
{
    let shape = shape.fitted(n);
    if r < shape.rows && c < shape.cols {
        Some(place_of(shape, r, c))
    } else {
        None
    }
}

pub fn get<T: Copy>(s: &[T], shape: Shape, r: usize, c: usize) -> Option<T>
    ensures answer { result ≡ (held (form shape) s.now).cell r c }
{
    peek(s, place_in(s.len(), shape, r, c)?)
}

pub fn put<T: Copy>(s: &mut [T], shape: Shape, r: usize, c: usize, x: T) -> Result<(), Refusal>
    ensures answer { result ≡ put_answer r c (held (form shape) s.old) }
    ensures effect { held (form shape) s.new ≡ answered result (put_cell r c x (held (form shape) s.old)) (held (form shape) s.old) }
    ensures kept { Kept result s.old s.new }
{
    let k = place_in(s.len(), shape, r, c).ok_or(Refusal::Place)?;
    poke(s, k, x);
    Ok(())
}

// The cells at two places change places.
pub fn swap<T: Copy>(
    s: &mut [T],
    shape: Shape,
    a: (usize, usize),
    b: (usize, usize),
) -> Result<(), Refusal>
    ensures answer { result ≡ swap_answer a b (held (form shape) s.old) }
    ensures effect { held (form shape) s.new ≡ answered result (swap_cells a b (held (form shape) s.old)) (held (form shape) s.old) }
    ensures kept { Kept result s.old s.new }
{
    let j = place_in(s.len(), shape, a.0, a.1).ok_or(Refusal::Place)?;
    let k = place_in(s.len(), shape, b.0, b.1).ok_or(Refusal::Place)?;
    s.swap(j, k);
    Ok(())
}

// One cell everywhere; what lies past the matrix stays.
pub fn fill<T: Copy>(s: &mut [T], shape: Shape, x: T)
    ensures effect { held (form shape) s.new ≡ filled (held (form shape) s.old).rows (held (form shape) s.old).cols x }
    ensures past { let m = held (form shape) s.old in drop (m.rows * m.cols) s.new ≡ drop (m.rows * m.cols) s.old }
{
    let shape = shape.fitted(s.len());
    fill_part(s, 0, shape.rows * shape.cols, x);
}

// The line becomes line i along the axis.
pub fn insert<T: Copy>(
    s: &mut [T],
    shape: Shape,
    axis: Axis,
    i: usize,
    line: &[T],
) -> Result<Shape, Refusal>
    ensures answer { verdict result ≡ insert_along (grid_limits (length s.old)) axis i line.now (held (form shape) s.old) }
    ensures effect { held (form (stands result shape)) s.new ≡ answered result (inserted axis i line.now (held (form shape) s.old)) (held (form shape) s.old) }
    ensures order { (stands result shape).order ≡ shape.order }
    ensures kept { Kept result s.old s.new }
{
    let shape = rows_along(s, shape, axis);
    insert_check(limits_over(s.len()), i, line.len(), shape.rows, shape.cols)?;
    Ok(insert_line(s, shape, i, line).along(axis))
}

// n rows of x put in at i; nothing for none of them, and in an empty matrix.
fn more_lines<T: Copy>(
    s: &mut [T],
    shape: Shape,
    i: usize,
    n: usize,
    x: T,
) -> Result<Shape, Refusal>
    requires at { i ≤ shape.rows }
    requires room { shape.rows * shape.cols ≤ length s.old }
    ensures answer { verdict result ≡ more_rows_answer (grid_limits (length s.old)) n (laid (form shape) s.old) }
    ensures effect { laid (form (stands result shape)) s.new ≡ answered result (more_rows i n x (laid (form shape) s.old)) (laid (form shape) s.old) }
    ensures order { (stands result shape).order ≡ shape.order }
    ensures fits { (stands result shape).rows * (stands result shape).cols ≤ length s.new }
    ensures kept { Kept result s.old s.new }
{
    more_check(limits_over(s.len()), n, shape.rows, shape.cols)?;
    if n == 0 || shape.cols == 0 {
        return Ok(shape);
    }
    Ok(space_lines(s, shape, i, n, x))
}

// n lines of x after the rest along the axis.
pub fn expand<T: Copy>(
    s: &mut [T],
    shape: Shape,
    axis: Axis,
    n: usize,
    x: T,
) -> Result<Shape, Refusal>
    ensures answer { verdict result ≡ more_along (grid_limits (length s.old)) axis n (held (form shape) s.old) }
    ensures effect { held (form (stands result shape)) s.new ≡ answered result (expanded axis n x (held (form shape) s.old)) (held (form shape) s.old) }
    ensures order { (stands result shape).order ≡ shape.order }
    ensures kept { Kept result s.old s.new }
{
    let shape = rows_along(s, shape, axis);
    Ok(more_lines(s, shape, shape.rows, n, x)?.along(axis))
}

// n lines of x before the rest along the axis.
pub fn prepend<T: Copy>(
    s: &mut [T],
    shape: Shape,
    axis: Axis,
    n: usize,
    x: T,
) -> Result<Shape, Refusal>
    ensures answer { verdict result ≡ more_along (grid_limits (length s.old)) axis n (held (form shape) s.old) }
    ensures effect { held (form (stands result shape)) s.new ≡ answered result (prepended axis n x (held (form shape) s.old)) (held (form shape) s.old) }
    ensures order { (stands result shape).order ≡ shape.order }
    ensures kept { Kept result s.old s.new }
{
    let shape = rows_along(s, shape, axis);
    Ok(more_lines(s, shape, 0, n, x)?.along(axis))
}

// Line i along the axis goes, into the first cells of the memory.
pub fn remove<T: Copy>(
    s: &mut [T],
    shape: Shape,
    axis: Axis,
    i: usize,
    memory: &mut [T],
) -> Result<Shape, Refusal>
    ensures answer { verdict result ≡ remove_along axis i memory.old (held (form shape) s.old) }
    ensures effect { held (form (stands result shape)) s.new ≡ answered result (removed axis i (held (form shape) s.old)) (held (form shape) s.old) }
    ensures line { memory.new ≡ answered result (over (line_of axis i (held (form shape) s.old)) memory.old) memory.old }
    ensures order { (stands result shape).order ≡ shape.order }
    ensures kept { Kept result s.old s.new }
{
    let shape = rows_along(s, shape, axis);
    remove_check(i, memory.len(), shape.rows, shape.cols)?;
    copy_line(s, shape, i, memory);
    Ok(delete_line(s, shape, i).along(axis))
}

// Line i along the axis goes, and nobody takes it.
pub fn delete<T: Copy>(s: &mut [T], shape: Shape, axis: Axis, i: usize) -> Result<Shape, Refusal>
    ensures answer { verdict result ≡ delete_along axis i (held (form shape) s.old) }
    ensures effect { held (form (stands result shape)) s.new ≡ answered result (removed axis i (held (form shape) s.old)) (held (form shape) s.old) }
    ensures order { (stands result shape).order ≡ shape.order }
    ensures kept { Kept result s.old s.new }
{
    let shape = rows_along(s, shape, axis);
    if shape.rows <= i {
        return Err(Refusal::Place);
    }
    Ok(delete_line(s, shape, i).along(axis))
}

// The last line along the axis comes first.
pub fn flip<T: Copy>(s: &mut [T], shape: Shape, axis: Axis)
    ensures effect { held (form shape) s.new ≡ flipped axis (held (form shape) s.old) }
{
    let shape = rows_along(s, shape, axis);
    flip_lines(s, shape);
}

pub fn rotate_half<T: Copy>(s: &mut [T], shape: Shape)
    ensures effect { held (form shape) s.new ≡ rotate_half (held (form shape) s.old) }
{
    let shape = shape.fitted(s.len());
    turn_half(s, shape);
}
