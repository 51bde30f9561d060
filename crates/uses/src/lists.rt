// Lists of board calls.
use cells::refusal::Refusal;
use flat::segment::Segment;
use matrix::axis::Axis;
use matrix::limits::Limits;

pub mod runs;

// One call of a board. A line that goes in is a segment of the list's cells.
#[derive(Clone, Copy, Debug, PartialEq, Eq)]
pub enum Call<T> {
    Size,
    Bounds,
    Get(usize, usize),
    Put(usize, usize, T),
    Insert(Axis, usize, Segment),
    Remove(Axis, usize),
    Transpose,
    Flip(Axis),
}

// What a board answers.
// kept: `Done` apart, since `Said(Ok(()))` would say of a call that it can be refused
#[derive(Clone, Copy, Debug, PartialEq, Eq)]
pub enum Answer<T> {
    Sized(usize, usize),
    Bounded(Limits),
    Cell(Option<T>),
    Said(Result<(), Refusal>),
    Done,
}
