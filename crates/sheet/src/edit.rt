// The edits of a sheet.
use matrix::axis::Axis;

// What was done, as far as undoing it wants to know: the place of a put; the index of a line and its length.
#[derive(Clone, Copy, Debug, Default, PartialEq, Eq)]
pub enum Edit {
    Put(usize, usize),
    Insert(Axis, usize, usize),
    Remove(Axis, usize, usize),
    #[default]
    Transpose,
    Flip(Axis),
}
