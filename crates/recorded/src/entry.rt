// One line of the recorded list: CALL ARGS : LINE => ANSWER ; ORDER ROWS COLS ; FLAT.
use cells::kinds::Kind;
use matrix::axis::Axis;
use matrix::shape::Order;
use walks::lines::End;

// A cell of the list, which is a number.
#[derive(Clone, Copy, PartialEq, Eq)]
pub struct Cell(pub u32);

impl Kind for Cell {
    ghost nothing = { record { 0 = 0 } };

    fn blank() -> Cell {
        Cell(0)
    }

    // kept: by the count, as at a penalty
    fn same(&self, other: &Cell) -> bool {
        self.0 == other.0
    }
}

// A call that begins a fresh grid.
#[derive(Drop)]
pub enum Making {
    New(usize, usize),
    Init(usize, usize, Cell),
    FromVec(usize, Vec<Cell>),
}

// A call on the grid that was begun.
#[derive(Drop)]
pub enum Call {
    Insert(Axis, usize, Vec<Cell>),
    Push(Axis, Vec<Cell>),
    Remove(Axis, usize),
    Pop(Axis),
    Delete(Axis, usize),
    Expand(Axis, usize),
    Prepend(Axis, usize),
    Flip(Axis),
    Transpose,
    RotateLeft,
    RotateRight,
    RotateHalf,
    Put(usize, usize, Cell),
    Swap((usize, usize), (usize, usize)),
    Fill(Cell),
    Clear,
    Get(usize, usize),
    // Whether the grid of these cells, with so many columns, is equal.
    Same(Order, usize, Vec<Cell>),
    IsEmpty,
    Size,
    // A line walked along to its end.
    Iter(Axis, usize),
    // A line from each of these ends, in order.
    IterLines(Axis, Vec<End>),
    IndexedIter,
    // The grid mapped, and all its cells with their places.
    MapRef,
}

#[derive(Drop)]
pub enum Step {
    Begin(Order, Making),
    Call(Call),
}

// The original panicked, or the call was refused here.
#[derive(Clone, Copy, PartialEq, Eq)]
pub struct Panicked;

#[derive(PartialEq, Eq, Drop)]
pub enum Answer {
    Done(Result<(), Panicked>),
    Line(Option<Vec<Cell>>),
    Cell(Option<Cell>),
    Said(bool),
    Size(usize, usize),
    // The lines that came, one after another; none at a step where nothing was left.
    Lines(Vec<Option<Vec<Cell>>>),
    // The places that came, each with its cell.
    Places(Vec<((usize, usize), Cell)>),
    // kept: these two are answers that the list never has, so that one comparison finds them, and an error would need a second.
    // No answer of the original's: a call wrote beyond the line that it handed out.
    Overrun,
    // No answer of a call: a cell, a size or places in the list with more or fewer numbers.
    Garbled,
}

// A grid after a call: its order, its size and what into_vec gives.
#[derive(Drop)]
pub struct After {
    pub order: Order,
    pub rows: usize,
    pub cols: usize,
    pub flat: Vec<Cell>,
}

#[derive(Drop)]
pub struct Entry {
    pub number: usize,
    pub step: Step,
    pub answer: Answer,
    pub after: After,
}

impl Entry {
    pub fn begins(&self) -> bool {
        matches!(self.step, Step::Begin(_, _))
    }
}
