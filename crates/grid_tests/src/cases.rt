// Worked cases on the grid A, which is 1 2 3 / 4 5 6.
use crate::expect::{equal, *};
use cells::refusal::Refusal;
use grid::grid::Grid;
use matrix::axis::Axis;
use matrix::making::from_vec_check;
use matrix::shape::Order;

// A in that order.
fn a(memory: &mut [u8], order: Order) -> Grid<'_, u8> {
    let flat = match order {
        Order::RowMajor => [1, 2, 3, 4, 5, 6],
        Order::ColumnMajor => [1, 4, 2, 5, 3, 6],
    };
    lay(memory, &flat, 3, order)
}

// A row inserted at 1, in both orders.
#[test]
fn row_inserted(rt: HostRuntime) {
    let flat = [
        (Order::RowMajor, [1, 2, 3, 7, 8, 9, 4, 5, 6]),
        (Order::ColumnMajor, [1, 7, 4, 2, 8, 5, 3, 9, 6]),
    ];
    for (order, flat) in flat {
        let mut memory = [0u8; 16];
        let mut g = a(&mut memory, order);
        equal(&rt, g.insert_row(1, &[7, 8, 9]), Ok(()));
        equal(&rt, g.size(), (3, 3));
        shows(&rt, &g, 3, &[1, 2, 3, 7, 8, 9, 4, 5, 6]);
        ended(&rt, g, &flat);
    }
}

#[test]
fn row_removed(rt: HostRuntime) {
    let mut memory = [0u8; 16];
    let mut line = [0u8; 3];
    let mut g = a(&mut memory, Order::ColumnMajor);
    took(&rt, g.remove_row(0, &mut line), &line, &[1, 2, 3]);
    equal(&rt, g.size(), (1, 3));
    ended(&rt, g, &[4, 5, 6]);
}

#[test]
fn turned(rt: HostRuntime) {
    let mut memory = [0u8; 16];
    let mut g = a(&mut memory, Order::RowMajor);
    g.rotate_right();
    equal(&rt, g.size(), (3, 2));
    equal(&rt, g.order(), Order::ColumnMajor);
    ended(&rt, g, &[4, 5, 6, 1, 2, 3]);
}

// The places and the lengths that are accepted.
#[test]
fn places(rt: HostRuntime) {
    let mut memory = [0u8; 16];
    let mut g = a(&mut memory, Order::RowMajor);
    equal(&rt, g.insert_row(3, &[7, 8, 9]), Err(Refusal::Place));
    equal(&rt, g.insert_row(3, &[7, 8]), Err(Refusal::Length));
    equal(&rt, g.insert_row(0, &[]), Err(Refusal::Empty));
    equal(&rt, g.put(2, 0, 9), Err(Refusal::Place));
    shows(&rt, &g, 3, &[1, 2, 3, 4, 5, 6]);
    equal(&rt, g.insert_row(2, &[7, 8, 9]), Ok(()));
    ended(&rt, g, &[1, 2, 3, 4, 5, 6, 7, 8, 9]);
}

#[test]
fn making(rt: HostRuntime) {
    let mut memory = [0u8; 16];
    equal(&rt, from_vec_check(16, 4, 0), Err(Refusal::Ragged));
    equal(&rt, from_vec_check(65537, 4, 0), Err(Refusal::Memory));
    let g = lay(&mut memory, &[], 7, Order::RowMajor);
    equal(&rt, g.size(), (0, 0));
    ended(&rt, g, &[]);
}

#[test]
fn cleared(rt: HostRuntime) {
    let mut memory = [0u8; 16];
    let mut g = a(&mut memory, Order::ColumnMajor);
    g.clear();
    equal(&rt, g.size(), (0, 0));
    equal(&rt, g.order(), Order::ColumnMajor);
    equal(&rt, g.get(0, 0), None);
    equal(&rt, g.push_col(&[7, 8]), Ok(()));
    ended(&rt, g, &[7, 8]);
}

// One cell everywhere, and the cells past the grid's.
#[test]
fn filled(rt: HostRuntime) {
    let mut memory = [9u8; 8];
    let mut g = a(&mut memory, Order::RowMajor);
    g.fill(7);
    shows(&rt, &g, 3, &[7, 7, 7, 7, 7, 7]);
    let (cells, n) = g.into_vec();
    equal(&rt, n, 6);
    assert!(rt; cells.starts_with(&[7, 7, 7, 7, 7, 7, 9, 9]));
}

#[test]
fn swapped(rt: HostRuntime) {
    let flat = [
        (Order::RowMajor, [6, 2, 3, 4, 5, 1]),
        (Order::ColumnMajor, [6, 4, 2, 5, 3, 1]),
    ];
    for (order, flat) in flat {
        let mut memory = [0u8; 16];
        let mut g = a(&mut memory, order);
        equal(&rt, g.swap((0, 0), (1, 2)), Ok(()));
        equal(&rt, g.swap((1, 1), (1, 1)), Ok(()));
        equal(&rt, g.swap((2, 0), (0, 0)), Err(Refusal::Place));
        equal(&rt, g.swap((0, 0), (0, 3)), Err(Refusal::Place));
        shows(&rt, &g, 3, &[6, 2, 3, 4, 5, 1]);
        ended(&rt, g, &flat);
    }
}

// The same cells in the same size, in either order.
#[test]
fn same(rt: HostRuntime) {
    let mut memory = [0u8; 16];
    let mut others = [9u8; 8];
    let g = a(&mut memory, Order::RowMajor);
    let mut h = a(&mut others, Order::ColumnMajor);
    assert!(rt; g.same(&h));
    assert!(rt; h.same(&g));
    equal(&rt, h.put(1, 2, 7), Ok(()));
    assert!(rt; !g.same(&h));
    equal(&rt, h.put(1, 2, 6), Ok(()));
    assert!(rt; g.same(&h));
    h.transpose();
    assert!(rt; !g.same(&h));
    h.clear();
    assert!(rt; !g.same(&h));
}

// Blank rows and columns after the rest and before it.
#[test]
fn spaced(rt: HostRuntime) {
    for order in [Order::RowMajor, Order::ColumnMajor] {
        let mut memory = [9u8; 24];
        let mut g = a(&mut memory, order);
        equal(&rt, g.expand_cols(2), Ok(()));
        shows(&rt, &g, 5, &[1, 2, 3, 0, 0, 4, 5, 6, 0, 0]);
        equal(&rt, g.prepend_rows(1), Ok(()));
        shows(&rt, &g, 5, &[0, 0, 0, 0, 0, 1, 2, 3, 0, 0, 4, 5, 6, 0, 0]);
        equal(&rt, g.delete(Axis::Col, 4), Ok(()));
        equal(&rt, g.prepend_cols(1), Ok(()));
        shows(&rt, &g, 5, &[0, 0, 0, 0, 0, 0, 1, 2, 3, 0, 0, 4, 5, 6, 0]);
        equal(&rt, g.delete(Axis::Row, 0), Ok(()));
        equal(&rt, g.expand_rows(2), Ok(()));
        shows(
            &rt,
            &g,
            5,
            &[0, 1, 2, 3, 0, 0, 4, 5, 6, 0, 0, 0, 0, 0, 0, 0, 0, 0, 0, 0],
        );
        equal(&rt, g.order(), order);
    }
}

// Nothing for no lines and in an empty grid, and too many lines.
#[test]
fn spaced_or_not(rt: HostRuntime) {
    let mut memory = [9u8; 8];
    let mut g = a(&mut memory, Order::RowMajor);
    equal(&rt, g.expand_rows(0), Ok(()));
    equal(&rt, g.prepend_cols(0), Ok(()));
    equal(&rt, g.expand_rows(255), Err(Refusal::Side));
    equal(&rt, g.prepend_cols(usize::MAX), Err(Refusal::Side));
    equal(&rt, g.expand_cols(2), Err(Refusal::Full));
    equal(&rt, g.prepend_rows(1), Err(Refusal::Full));
    shows(&rt, &g, 3, &[1, 2, 3, 4, 5, 6]);
    equal(&rt, g.expand_cols(1), Ok(()));
    ended(&rt, g, &[1, 2, 3, 0, 4, 5, 6, 0]);
    let mut memory = [9u8; 8];
    let mut g = lay(&mut memory, &[], 3, Order::RowMajor);
    equal(&rt, g.expand_rows(2), Ok(()));
    equal(&rt, g.prepend_cols(300), Ok(()));
    assert!(rt; g.is_empty());
}

// Memory that is full, and the most rows.
#[test]
fn limits(rt: HostRuntime) {
    let mut memory = [0u8; 8];
    let mut line = [0u8; 3];
    let mut g = a(&mut memory, Order::RowMajor);
    equal(&rt, g.push_row(&[7, 8, 9]), Err(Refusal::Full));
    took(&rt, g.remove_row(1, &mut line), &line, &[4, 5, 6]);
    equal(&rt, g.push_row(&[7, 8, 9]), Ok(()));
    ended(&rt, g, &[1, 2, 3, 7, 8, 9]);
    let mut memory = [0u8; 300];
    let mut g = lay(&mut memory, &[], 1, Order::RowMajor);
    for _ in 0..256u16 {
        equal(&rt, g.push_row(&[5]), Ok(()));
    }
    equal(&rt, g.push_row(&[5]), Err(Refusal::Side));
    equal(&rt, g.size(), (256, 1));
}
