// One list of calls on two boards of other kinds.
use crate::expect::equal;
use boards::board::Board;
use boards::turned::TurnedBoard;
use cells::refusal::Refusal;
use flat::segment::Segment;
use grid::grid::Grid;
use matrix::axis::Axis;
use matrix::limits::Limits;
use matrix::shape::Order;
use seats::board::SeatBoard;
use std::process::Abort;
use uses::lists::runs::run_both;
use uses::lists::{Answer, Call};

const CALLS: [Call<u8>; 19] = [
    Call::Insert(Axis::Row, 0, Segment { start: 0, len: 3 }),
    Call::Insert(Axis::Row, 1, Segment { start: 3, len: 3 }),
    Call::Insert(Axis::Row, 3, Segment { start: 0, len: 3 }),
    Call::Insert(Axis::Col, 1, Segment { start: 6, len: 2 }),
    Call::Insert(Axis::Col, 0, Segment { start: 6, len: 3 }),
    Call::Put(1, 2, 77),
    Call::Put(9, 0, 1),
    Call::Flip(Axis::Col),
    Call::Transpose,
    Call::Size,
    Call::Bounds,
    Call::Insert(Axis::Col, 2, Segment { start: 4, len: 4 }),
    Call::Remove(Axis::Col, 1),
    Call::Flip(Axis::Row),
    Call::Get(0, 0),
    Call::Get(3, 0),
    Call::Remove(Axis::Row, 2),
    Call::Remove(Axis::Row, 7),
    Call::Size,
];

const LINES: [u8; 9] = [1, 2, 3, 4, 5, 6, 7, 8, 9];

// What a board of these limits answers. It begins empty.
fn answered(limits: Limits) -> [Answer<u8>; 19] {
    [
        Answer::Said(Ok(())),
        Answer::Said(Ok(())),
        Answer::Said(Err(Refusal::Place)),
        Answer::Said(Ok(())),
        Answer::Said(Err(Refusal::Length)),
        Answer::Said(Ok(())),
        Answer::Said(Err(Refusal::Place)),
        Answer::Done,
        Answer::Done,
        Answer::Sized(4, 2),
        Answer::Bounded(limits),
        Answer::Said(Ok(())),
        Answer::Said(Ok(())),
        Answer::Done,
        Answer::Cell(Some(1)),
        Answer::Cell(Some(3)),
        Answer::Said(Ok(())),
        Answer::Said(Err(Refusal::Place)),
        Answer::Sized(3, 2),
    ]
}

// The list on both boards: they answer alike up to their own limits, and leave the same cells in the memory.
fn alike<A: Board<Cell = u8>, B: Board<Cell = u8>>(
    rt: &impl Abort,
    one: &mut A,
    limits: Limits,
    other: &mut B,
    other_limits: Limits,
) {
    let mut memory = [0u8; 5];
    let mut other_memory = [0u8; 5];
    let mut answers = [Answer::Done; 19];
    let mut other_answers = [Answer::Done; 19];
    run_both(
        one,
        other,
        &CALLS,
        &LINES,
        &mut memory,
        &mut other_memory,
        &mut answers,
        &mut other_answers,
    );
    equal(rt, answers, answered(limits));
    equal(rt, other_answers, answered(other_limits));
    equal(rt, memory, [2, 6, 8, 4, 0]);
    equal(rt, other_memory, [2, 6, 8, 4, 0]);
}

// The same beside a board turned.
// kept: a function of its own, since a proof covers `over` at a type parameter and not at a grid.
fn beside_turned<A: Board<Cell = u8>, B: Board<Cell = u8> + Drop>(
    rt: &impl Abort,
    board: &mut A,
    limits: Limits,
    lower: B,
    lower_limits: Limits,
) {
    let mut turned = TurnedBoard::over(lower);
    alike(rt, board, limits, &mut turned, lower_limits);
}

// The limits of a grid over 16 cells.
const GRID: Limits = Limits {
    side: 256,
    most: 16,
};

// Those of a seat board of 4. The list keeps within both.
const SEATS: Limits = Limits { side: 4, most: 16 };

#[test]
fn grid_and_seats(rt: HostRuntime) {
    let mut over = [0u8; 16];
    let mut under = [0u8; 16];
    let mut g = Grid::from_vec_with_order(&mut over, 0, 0, Order::ColumnMajor);
    let mut s = SeatBoard::new(&mut under, 4);
    alike(&rt, &mut g, GRID, &mut s, SEATS);
}

#[test]
fn grid_and_turned_boards(rt: HostRuntime) {
    let mut over = [0u8; 16];
    let mut under = [0u8; 16];
    let mut g = Grid::from_vec_with_order(&mut over, 0, 0, Order::RowMajor);
    beside_turned(
        &rt,
        &mut g,
        GRID,
        Grid::from_vec_with_order(&mut under, 0, 0, Order::RowMajor),
        GRID,
    );
    let mut over = [0u8; 16];
    let mut under = [0u8; 16];
    let mut g = Grid::from_vec_with_order(&mut over, 0, 0, Order::ColumnMajor);
    beside_turned(&rt, &mut g, GRID, SeatBoard::new(&mut under, 4), SEATS);
}
