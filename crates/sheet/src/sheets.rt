// What a sheet is: a board whose edits can be stepped back.
use crate::journal::Journal;

pub mod back;
pub mod open;
pub mod published;
pub mod questions;

// A sheet that is being keyed into. It owes a step back for each edit that its journal has noted, and its keep holds what
// those edits took off.
#[derive(Drop)]
pub struct OpenSheet<B, K> {
    board: B,
    keep: K,
    journal: Journal,
}

// A sheet whose edits are settled.
#[derive(Drop)]
pub struct PublishedSheet<B, K> {
    board: B,
    keep: K,
    settled: usize,
}
