// A list on one sheet and its exchange on another, over boards and keeps of other kinds.
use crate::expect::equal;
use boards::board::Board;
use flat::segment::Segment;
use grid::grid::Grid;
use keeps::joined::JoinedKeep;
use keeps::keep::Keep;
use keeps::stack::StackKeep;
use matrix::axis::Axis;
use matrix::shape::Order;
use replay::call::{Answer, Call};
use replay::mirror::replay_both;
use seats::board::SeatBoard;
use std::process::Abort;

const PAIR: Segment = Segment { start: 0, len: 2 };

const TRIPLE: Segment = Segment { start: 2, len: 3 };

const CALLS: [Call<u8>; 16] = [
    Call::Size,
    Call::Insert(Axis::Row, 2, TRIPLE),
    Call::Insert(Axis::Row, 9, TRIPLE),
    Call::Put(0, 2, 70),
    Call::Get(0, 2),
    Call::Remove(Axis::Col, 0, TRIPLE),
    Call::Remove(Axis::Col, 0, PAIR),
    Call::Flip(Axis::Row),
    Call::Transpose,
    Call::Size,
    Call::Owed,
    Call::Kept,
    Call::StepBack(TRIPLE),
    Call::StepBack(TRIPLE),
    Call::Publish,
    Call::Settled,
];

const LINES: [u8; 5] = [1, 2, 3, 4, 5];

// What the exchanged call is answered: sizes have their sides exchanged.
fn mirrored(answer: Answer<u8>) -> Answer<u8> {
    match answer {
        Answer::Sized(rows, cols) => Answer::Sized(cols, rows),
        same => same,
    }
}

// kept: the struct of a board and a keep is OpenSheet, which the run makes of both; the handle is for the assertions.
fn both<
    B: Board<Cell = u8> + Drop,
    K: Keep<Cell = u8> + Drop,
    C: Board<Cell = u8> + Drop,
    L: Keep<Cell = u8> + Drop,
>(rt: &impl Abort, mut board: B, keep: K, mut other: C, first: L, second: L) {
    for (i, line) in [[10, 11, 12], [13, 14, 15]].iter().enumerate() {
        equal(rt, board.insert(Axis::Row, i, line), Ok(()));
        equal(rt, other.insert(Axis::Col, i, line), Ok(()));
    }
    let joined = JoinedKeep::new(first, second);
    let mut exchanged = [Call::Size; 16];
    let mut memory = [0u8; 8];
    let mut other_memory = [0u8; 8];
    let mut answers = [Answer::Lacking; 16];
    let mut other_answers = [Answer::Lacking; 16];
    let (one, two) = replay_both(
        board,
        keep,
        other,
        joined,
        &CALLS,
        &mut exchanged,
        &LINES,
        &mut memory,
        &mut other_memory,
        &mut answers,
        &mut other_answers,
    );
    for (answer, other) in answers.iter().zip(other_answers.iter()) {
        assert!(rt; *answer != Answer::Lacking);
        equal(rt, mirrored(*answer), *other);
    }
    equal(rt, &memory[0..8], &other_memory[0..8]);
    equal(rt, one.owed, 0);
    equal(rt, two.owed, 0);
    equal(rt, one.board.size(), (3, 2));
    equal(rt, two.board.size(), (2, 3));
    // kept: each place of the board is asked by its numbers, and no cells are listed here.
    for r in 0..3 {
        for c in 0..2 {
            equal(rt, one.board.get(r, c), two.board.get(c, r));
        }
    }
    equal(rt, one.board.get(0, 1), Some(70));
}

// Both boards have S = 256 and N = 65,536, and both keeps M = 9.
#[test]
fn grid_and_seats(rt: HostRuntime) {
    let mut cells = [0u8; 65536];
    let mut seats = [0u8; 65536];
    let mut kept = [0u8; 9];
    let mut four = [0u8; 4];
    let mut five = [0u8; 5];
    both(
        &rt,
        Grid::from_vec_with_order(&mut cells, 0, 0, Order::ColumnMajor),
        StackKeep::new(&mut kept),
        SeatBoard::new(&mut seats, 256),
        StackKeep::new(&mut four),
        StackKeep::new(&mut five),
    );
}
