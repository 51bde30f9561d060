// What the tests expect of a board.
use boards::board::Board;
use std::fmt::Debug;
use std::process::Abort;

// The answer is the one wanted.
// kept: a function, since each `assert_eq!` written out is proved by itself, with what it would print
pub(crate) fn equal<X: PartialEq + Debug + Copy>(rt: &impl Abort, found: X, wanted: X) {
    assert_eq!(rt; found, wanted);
}

// The board has as many columns, and row by row these cells.
pub(crate) fn shows<B: Board<Cell = u8>>(rt: &impl Abort, b: &B, cols: usize, cells: &[u8]) {
    let (rows, across) = b.size();
    equal(rt, across, cols);
    equal(rt, rows.checked_mul(cols), Some(cells.len()));
    for (r, row) in cells.chunks(cols.max(1)).enumerate() {
        for (c, x) in row.iter().enumerate() {
            equal(rt, b.get(r, c), Some(*x));
        }
    }
}
