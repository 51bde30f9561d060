// What the answers of a list add up to.
pub mod counts;

// What a call is for, as far as the counts go.
#[derive(Clone, Copy, Debug, PartialEq, Eq)]
pub enum Aim {
    Editing,
    Undoing,
    Settling,
    Asking,
}

// Edits accepted, stepped back and settled, each up to the largest number there is.
#[derive(Clone, Copy, Debug, Default, PartialEq, Eq)]
pub struct Tally {
    pub accepted: usize,
    pub back: usize,
    pub settled: usize,
}
