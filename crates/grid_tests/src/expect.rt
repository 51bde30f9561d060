// What the tests lay out and expect.
use cells::refusal::Refusal;
use grid::grid::Grid;
use matrix::shape::Order;
use std::fmt::Debug;
use std::process::Abort;

// The answer is the one wanted.
// kept: a function, since each `assert_eq!` written out is proved by itself, with what it would print
pub(crate) fn equal<X: PartialEq + Debug + Copy>(rt: &impl Abort, found: X, wanted: X) {
    assert_eq!(rt; found, wanted);
}

// The grid of the flat cells over the memory; empty where they make none.
pub(crate) fn lay<'a>(
    memory: &'a mut [u8],
    flat: &[u8],
    cols: usize,
    order: Order,
) -> Grid<'a, u8> {
    let n = flat.len();
    if n <= memory.len() {
        memory[..n].copy_from_slice(flat);
    }
    Grid::from_vec_with_order(memory, n, cols, order)
}

// A line was handed out, and it is these cells.
pub(crate) fn took(rt: &impl Abort, r: Result<(), Refusal>, memory: &[u8], line: &[u8]) {
    equal(rt, r, Ok(()));
    assert!(rt;
        memory.starts_with(line),
        "{memory:?} does not begin with {line:?}"
    );
}

// The grid has as many columns, and row by row these cells, in whatever order it stores them.
pub(crate) fn shows(rt: &impl Abort, g: &Grid<'_, u8>, cols: usize, cells: &[u8]) {
    equal(rt, g.cols(), cols);
    equal(rt, g.rows().checked_mul(cols), Some(cells.len()));
    for (r, row) in cells.chunks(cols.max(1)).enumerate() {
        for (c, x) in row.iter().enumerate() {
            equal(rt, g.get(r, c), Some(*x));
        }
    }
}

// The grid ends with these flat cells.
pub(crate) fn ended(rt: &impl Abort, g: Grid<'_, u8>, flat: &[u8]) {
    let (cells, n) = g.into_vec();
    equal(rt, n, flat.len());
    assert!(rt;
        cells.starts_with(flat),
        "{cells:?} do not begin with {flat:?}"
    );
}
