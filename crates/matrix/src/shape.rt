// How flat cells are read as a matrix.
ghost use Rattle.std.specs.Prelude.{◌≡◌, ℕ, ◌≤◌};

pub mod calls;
pub mod words;

// Whether the cells lie row by row or column by column.
#[derive(Clone, Copy, Debug, PartialEq, Eq)]
pub enum Order {
    RowMajor,
    ColumnMajor,
}

// A size that a board may have, and an order. No value of this type has a side above 256, or rows without columns.
#[derive(Clone, Copy)]
pub struct Shape {
    pub rows: usize,
    pub cols: usize,
    pub order: Order,
    ghost tall: { rows ≤ 256 },
    ghost wide: { cols ≤ 256 },
    ghost no_rows: { (rows ≡ 0 → cols ≡ 0) },
    ghost no_cols: { (cols ≡ 0 → rows ≡ 0) },
}
