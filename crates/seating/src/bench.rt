// What a bench is.
ghost use Rattle.std.specs.Prelude.{◌≡◌, ℕ, ◌<◌, ◌≤◌, length, slice_index};

use matrix::limits::SIDE;

pub mod calls;

// The seats of the rows, or of the columns. Each of `side` seats stands once in the table: those of the `count` lines
// there are first, in the order of the lines, and after them those that are free.
#[derive(Clone, Copy)]
pub struct Bench {
    pub(crate) side: usize,
    pub(crate) count: usize,
    // kept: no heap, so the table has room for every seat that a side may have
    pub(crate) table: [u16; SIDE],
    ghost small: { (side ≤ 256) × (count ≤ side) },
    ghost long: { length table ≡ 256 },
    ghost below: { (i : ℕ) → i < side → slice_index table i < side },
    ghost once: { (i : ℕ) → (j : ℕ) → (i < side) × (j < side) × (slice_index table i ≡ slice_index table j) → i ≡ j },
}
