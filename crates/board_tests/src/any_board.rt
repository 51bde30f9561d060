// What is written once over any board, on boards of each kind.
use crate::expect::{equal, shows};
use boards::board::Board;
use boards::turned::TurnedBoard;
use cells::refusal::Refusal;
use grid::grid::Grid;
use matrix::axis::Axis;
use matrix::shape::Order;
use seats::board::SeatBoard;
use std::process::Abort;
use uses::turns::{flip_by_turns, insert_by_turns, remove_by_turns};
use uses::undo::there_and_back;

// On an empty board, then on 1 2 3 / 4 5 6, which stands afterwards.
fn comes_back<B: Board<Cell = u8>>(rt: &impl Abort, b: &mut B) {
    let mut line = [0u8; 4];
    equal(
        rt,
        there_and_back(b, Axis::Col, 0, &[1, 2, 3], &mut line),
        Ok(()),
    );
    equal(rt, b.size(), (0, 0));
    equal(rt, line, [1, 2, 3, 0]);
    equal(rt, b.insert(Axis::Row, 0, &[4, 5, 6]), Ok(()));
    equal(rt, b.insert(Axis::Row, 0, &[1, 2, 3]), Ok(()));
    equal(
        rt,
        there_and_back(b, Axis::Row, 1, &[7, 8, 9], &mut line),
        Ok(()),
    );
    equal(rt, line, [7, 8, 9, 0]);
    equal(
        rt,
        there_and_back(b, Axis::Col, 3, &[10, 11], &mut line),
        Ok(()),
    );
    equal(rt, line, [10, 11, 9, 0]);
    equal(
        rt,
        there_and_back(b, Axis::Row, 0, &[7, 8, 9], &mut line[0..2]),
        Err(Refusal::Short),
    );
    equal(
        rt,
        there_and_back(b, Axis::Col, 0, &[7, 8, 9], &mut line),
        Err(Refusal::Length),
    );
    equal(
        rt,
        there_and_back(b, Axis::Row, 3, &[7, 8, 9], &mut line),
        Err(Refusal::Place),
    );
    equal(rt, line, [10, 11, 9, 0]);
    shows(rt, b, 3, &[1, 2, 3, 4, 5, 6]);
}

// On 1 2 3 / 4 5 6: 7 8 goes in between, all is turned round along both axes, and all but 3 7 1 goes again.
fn by_turns<B: Board<Cell = u8>>(rt: &impl Abort, b: &mut B) {
    let mut line = [0u8; 4];
    equal(
        rt,
        insert_by_turns(b, Axis::Col, 0, &[7, 8, 9]),
        Err(Refusal::Length),
    );
    equal(
        rt,
        insert_by_turns(b, Axis::Row, 3, &[7, 8, 9]),
        Err(Refusal::Place),
    );
    equal(rt, insert_by_turns(b, Axis::Col, 1, &[7, 8]), Ok(()));
    shows(rt, b, 4, &[1, 7, 2, 3, 4, 8, 5, 6]);
    flip_by_turns(b, Axis::Col);
    shows(rt, b, 4, &[3, 2, 7, 1, 6, 5, 8, 4]);
    flip_by_turns(b, Axis::Row);
    shows(rt, b, 4, &[6, 5, 8, 4, 3, 2, 7, 1]);
    equal(rt, insert_by_turns(b, Axis::Row, 2, &[9, 9, 9, 9]), Ok(()));
    equal(
        rt,
        remove_by_turns(b, Axis::Row, 3, &mut line),
        Err(Refusal::Place),
    );
    equal(
        rt,
        remove_by_turns(b, Axis::Row, 2, &mut line[0..3]),
        Err(Refusal::Short),
    );
    equal(rt, line, [0, 0, 0, 0]);
    equal(rt, remove_by_turns(b, Axis::Row, 2, &mut line), Ok(()));
    equal(rt, line, [9, 9, 9, 9]);
    equal(rt, remove_by_turns(b, Axis::Row, 0, &mut line), Ok(()));
    equal(rt, line, [6, 5, 8, 4]);
    equal(rt, remove_by_turns(b, Axis::Col, 1, &mut line), Ok(()));
    equal(rt, line, [2, 5, 8, 4]);
    shows(rt, b, 3, &[3, 7, 1]);
}

#[test]
fn grids(rt: HostRuntime) {
    for order in [Order::RowMajor, Order::ColumnMajor] {
        let mut memory = [0u8; 12];
        let mut g = Grid::from_vec_with_order(&mut memory, 0, 0, order);
        comes_back(&rt, &mut g);
        by_turns(&rt, &mut g);
    }
}

// The memory holds the board's cells, wherever their seats are, and past the seats what it held before.
#[test]
fn seat_board(rt: HostRuntime) {
    let mut memory = [99u8; 17];
    let mut b = SeatBoard::new(&mut memory, 4);
    comes_back(&rt, &mut b);
    by_turns(&rt, &mut b);
    let cells = b.into_cells();
    equal(&rt, cells.len(), 17);
    equal(&rt, cells.get(16), Some(&99));
    for x in [3, 7, 1] {
        assert!(rt; cells.contains(&x));
    }
}

// The same on the board turned, which gives back the lower one with the column 3 7 1.
// kept: a function of its own, since a proof covers `over` at a type parameter and not at a grid.
fn turned<B: Board<Cell = u8> + Drop>(rt: &impl Abort, lower: B) {
    let mut b = TurnedBoard::over(lower);
    comes_back(rt, &mut b);
    by_turns(rt, &mut b);
    let lower = b.into_lower();
    shows(rt, &lower, 1, &[3, 7, 1]);
}

#[test]
fn turned_boards(rt: HostRuntime) {
    let mut memory = [0u8; 12];
    turned(
        &rt,
        Grid::from_vec_with_order(&mut memory, 0, 0, Order::ColumnMajor),
    );
    let mut memory = [0u8; 16];
    turned(&rt, SeatBoard::new(&mut memory, 4));
}
