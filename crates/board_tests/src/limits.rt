// A board that is full says so, and takes a line again when one has gone.
use crate::expect::equal;
use boards::board::Board;
use boards::turned::TurnedBoard;
use cells::refusal::Refusal;
use grid::grid::Grid;
use matrix::axis::Axis;
use matrix::shape::Order;
use seats::board::SeatBoard;
use std::process::Abort;

// 1 2 3 / 4 5 6 on an empty board, then one more row where there is one. The next row is refused, and accepted once a row
// has gone.
fn refused_then_taken<B: Board<Cell = u8>>(
    rt: &impl Abort,
    b: &mut B,
    more: Option<[u8; 3]>,
    why: Refusal,
) {
    let mut line = [0u8; 4];
    equal(rt, b.insert(Axis::Row, 0, &[4, 5, 6]), Ok(()));
    equal(rt, b.insert(Axis::Row, 0, &[1, 2, 3]), Ok(()));
    if let Some(more) = more {
        equal(rt, b.insert(Axis::Row, 2, &more), Ok(()));
    }
    let (rows, _) = b.size();
    equal(rt, b.insert(Axis::Row, 0, &[7, 8, 9]), Err(why));
    equal(rt, b.size(), (rows, 3));
    equal(rt, b.get(0, 0), Some(1));
    equal(rt, b.remove(Axis::Row, 0, &mut line), Ok(()));
    equal(rt, line, [1, 2, 3, 0]);
    equal(rt, b.insert(Axis::Row, 0, &[7, 8, 9]), Ok(()));
    equal(rt, b.size(), (rows, 3));
    equal(rt, b.get(0, 2), Some(9));
    equal(rt, b.get(1, 0), Some(4));
}

#[test]
fn grids_over_eight_cells(rt: HostRuntime) {
    for order in [Order::RowMajor, Order::ColumnMajor] {
        let mut memory = [0u8; 8];
        let mut g = Grid::from_vec_with_order(&mut memory, 0, 0, order);
        refused_then_taken(&rt, &mut g, None, Refusal::Full);
    }
}

// The same on the board turned.
// kept: a function of its own, since a proof covers `over` at a type parameter and not at a grid.
fn turned_over<B: Board<Cell = u8> + Drop>(rt: &impl Abort, lower: B) {
    let mut b = TurnedBoard::over(lower);
    refused_then_taken(rt, &mut b, None, Refusal::Full);
}

#[test]
fn turned_grids_over_eight_cells(rt: HostRuntime) {
    for order in [Order::RowMajor, Order::ColumnMajor] {
        let mut memory = [0u8; 8];
        turned_over(&rt, Grid::from_vec_with_order(&mut memory, 0, 0, order));
    }
}

#[test]
fn seat_board_of_three(rt: HostRuntime) {
    let mut memory = [0u8; 9];
    let mut b = SeatBoard::new(&mut memory, 3);
    refused_then_taken(&rt, &mut b, Some([0, 0, 0]), Refusal::Side);
}

// A freed seat is used again, for as long as there is use for one.
#[test]
fn seats_again_and_again(rt: HostRuntime) {
    let mut memory = [0u8; 4];
    let mut b = SeatBoard::new(&mut memory, 2);
    equal(&rt, b.insert(Axis::Row, 0, &[1, 2]), Ok(()));
    // kept: the number itself goes in, as the cells of a row, and comes out.
    for k in 0u8..200 {
        let mut line = [0u8; 2];
        equal(&rt, b.insert(Axis::Row, 0, &[k, k]), Ok(()));
        b.flip(Axis::Row);
        b.transpose();
        equal(&rt, b.remove(Axis::Col, 0, &mut line), Ok(()));
        b.transpose();
        equal(&rt, b.size(), (1, 2));
        equal(&rt, b.get(0, 0), Some(k));
    }
}
