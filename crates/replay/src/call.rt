// The calls of a scorer's list, and what they are answered.
pub mod exchange;

use cells::refusal::Refusal;
use flat::segment::Segment;
use matrix::axis::Axis;
use sheet::sheets::{OpenSheet, PublishedSheet};

#[derive(Clone, Copy, Debug, PartialEq, Eq)]
pub enum Call<T> {
    Put(usize, usize, T),
    Insert(Axis, usize, Segment),
    Remove(Axis, usize, Segment),
    Transpose,
    Flip(Axis),
    StepBack(Segment),
    Publish,
    Reopen,
    Get(usize, usize),
    Size,
    Owed,
    Kept,
    Settled,
}

// `Lacking` is said where the sheet's state does not have the call, and `Moved` by a sheet that goes on open.
// kept: `Lacking` among the answers, since each call has one answer of them, and an `Option` round it would be a second layer in
// every list of answers; `Moved` apart, since `Said(Ok(()))` would say of a call that it can be refused
#[derive(Clone, Copy, Debug, PartialEq, Eq)]
pub enum Answer<T> {
    Said(Result<(), Refusal>),
    Cell(Option<T>),
    Sized(usize, usize),
    Count(usize),
    Moved,
    Lacking,
}

// A sheet, open or published.
#[derive(Drop)]
pub enum State<B, K> {
    Open(OpenSheet<B, K>),
    Published(PublishedSheet<B, K>),
}
