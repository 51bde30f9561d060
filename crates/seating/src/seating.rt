// What a seating is.
ghost use Rattle.std.specs.Prelude.{◌≡◌, ℕ};

use crate::bench::Bench;

pub mod calls;
pub mod edits;
mod lines;
pub mod places;

// Which seat is which row and which column. The cell of a row's seat a and a column's seat b has flat place a × side + b.
#[derive(Clone, Copy)]
pub struct Seating {
    pub(crate) down: Bench,
    pub(crate) across: Bench,
    ghost square: { across.side ≡ down.side },
    ghost no_rows: { (down.count ≡ 0 → across.count ≡ 0) },
    ghost no_cols: { (across.count ≡ 0 → down.count ≡ 0) },
}
