// How large a board may grow.

// The most rows and the most columns that any board has, and the longest line.
pub const SIDE: usize = 256;

// The most cells that any board or keep has.
pub const CELLS: usize = 65536;

// `side` is the most rows and the most columns, `most` the most cells.
#[derive(Clone, Copy, Debug, PartialEq, Eq)]
pub struct Limits {
    pub side: usize,
    pub most: usize,
}
