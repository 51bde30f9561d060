// Walks over lines and cells.
use crate::expect::{equal, *};
use cells::refusal::Refusal;
use grid::grid::Grid;
use matrix::axis::Axis;
use matrix::shape::Order;
use std::process::Abort;
use walks::index::{indexed_iter, read_cells};
use walks::line::{LineWalk, iter_col, iter_line, iter_row, read_line};
use walks::lines::{End, iter_cols, iter_rows, lines_from};
use walks::walk::{Walk, read};

// The walk gives these cells, and then nothing.
fn gives(rt: &impl Abort, mut walk: LineWalk, g: &Grid<'_, u8>, cells: &[u8]) {
    for x in cells {
        equal(rt, walk.next(g), Some(*x));
    }
    equal(rt, walk.next(g), None);
    equal(rt, walk.next(g), None);
}

// A line was handed out, and it gives these cells.
fn handed(rt: &impl Abort, line: Option<LineWalk>, g: &Grid<'_, u8>, cells: &[u8]) {
    assert!(rt; line.is_some());
    if let Some(walk) = line {
        gives(rt, walk, g, cells);
    }
}

// The sum of what a walk gives, up to four cells.
fn sum(mut walk: LineWalk, g: &Grid<'_, u8>) -> u32 {
    let mut line = [0u8; 4];
    let n = read(&mut walk, g, &mut line);
    let mut sum = 0u32;
    for x in &line[..n] {
        sum = sum.saturating_add(u32::from(*x));
    }
    sum
}

// `iter_row`, `iter_col`, `iter_rows`, `iter_cols` and `indexed_iter` of the original's documentation.
#[test]
fn documented(rt: HostRuntime) {
    let mut memory = [0u8; 8];
    let g = lay(&mut memory, &[1, 2, 3, 3, 4, 5], 3, Order::RowMajor);
    handed(&rt, iter_col(&g, 1).ok(), &g, &[2, 4]);
    handed(&rt, iter_row(&g, 1).ok(), &g, &[3, 4, 5]);
    let mut memory = [0u8; 8];
    let g = lay(&mut memory, &[1, 2, 3, 4], 2, Order::RowMajor);
    equal(&rt, indexed_iter(&g).next(&g), Some(((0, 0), 1)));
    let mut memory = [0u8; 8];
    let g = lay(&mut memory, &[1, 2, 3, 4, 5, 6], 3, Order::RowMajor);
    let mut rows = iter_rows(&g);
    for by_row in [6, 15] {
        equal(&rt, rows.next(&g).map(|row| sum(row, &g)), Some(by_row));
    }
    equal(&rt, rows.next(&g), None);
    let mut cols = iter_cols(&g);
    for by_col in [5, 7, 9] {
        equal(&rt, cols.next(&g).map(|col| sum(col, &g)), Some(by_col));
    }
    equal(&rt, cols.next(&g), None);
}

// A row and a column in both orders, and the lines that are not there.
#[test]
fn lines_walked(rt: HostRuntime) {
    let flat = [
        (Order::RowMajor, [1, 2, 3, 4, 5, 6]),
        (Order::ColumnMajor, [1, 4, 2, 5, 3, 6]),
    ];
    for (order, flat) in flat {
        let mut memory = [0u8; 16];
        let g = lay(&mut memory, &flat, 3, order);
        handed(&rt, iter_row(&g, 1).ok(), &g, &[4, 5, 6]);
        handed(&rt, iter_col(&g, 2).ok(), &g, &[3, 6]);
        handed(&rt, iter_line(&g, Axis::Col, 0).ok(), &g, &[1, 4]);
        equal(&rt, iter_row(&g, 2), Err(Refusal::Place));
        equal(&rt, iter_col(&g, 3), Err(Refusal::Place));
    }
}

// A line in one call, and the rest of the memory as it was.
#[test]
fn lines_read(rt: HostRuntime) {
    let mut memory = [0u8; 16];
    let g = lay(&mut memory, &[1, 2, 3, 4, 5, 6], 3, Order::RowMajor);
    let mut line = [9u8; 4];
    equal(
        &rt,
        read_line(&g, Axis::Row, 2, &mut line),
        Err(Refusal::Place),
    );
    equal(
        &rt,
        read_line(&g, Axis::Row, 1, &mut line[..2]),
        Err(Refusal::Short),
    );
    equal(&rt, line, [9, 9, 9, 9]);
    took(
        &rt,
        read_line(&g, Axis::Row, 1, &mut line),
        &line,
        &[4, 5, 6, 9],
    );
    took(
        &rt,
        read_line(&g, Axis::Col, 0, &mut line),
        &line,
        &[1, 4, 6, 9],
    );
}

// A line in two pieces.
#[test]
fn line_in_pieces(rt: HostRuntime) {
    let mut memory = [0u8; 16];
    let g = lay(&mut memory, &[1, 2, 3, 4, 5, 6], 3, Order::RowMajor);
    let mut line = [9u8; 4];
    if let Ok(mut walk) = iter_row(&g, 0) {
        equal(&rt, read(&mut walk, &g, &mut line[..2]), 2);
        equal(&rt, line, [1, 2, 9, 9]);
        equal(&rt, read(&mut walk, &g, &mut line), 1);
        equal(&rt, line, [3, 2, 9, 9]);
        equal(&rt, read(&mut walk, &g, &mut line), 0);
    }
}

// Every cell with its place, as it lies.
#[test]
fn cells_with_places(rt: HostRuntime) {
    let mut memory = [0u8; 16];
    let g = lay(&mut memory, &[1, 2, 3, 4, 5, 6], 3, Order::RowMajor);
    let mut items = [((9, 9), 9); 7];
    equal(&rt, read_cells(&g, &mut items), 6);
    equal(
        &rt,
        items,
        [
            ((0, 0), 1),
            ((0, 1), 2),
            ((0, 2), 3),
            ((1, 0), 4),
            ((1, 1), 5),
            ((1, 2), 6),
            ((9, 9), 9),
        ],
    );
    let mut memory = [0u8; 16];
    let g = lay(&mut memory, &[1, 4, 2, 5, 3, 6], 3, Order::ColumnMajor);
    let mut items = [((9, 9), 9); 4];
    equal(&rt, read_cells(&g, &mut items), 4);
    equal(
        &rt,
        items,
        [((0, 0), 1), ((1, 0), 4), ((0, 1), 2), ((1, 1), 5)],
    );
    let mut walk = indexed_iter(&g);
    equal(&rt, read(&mut walk, &g, &mut items), 4);
    equal(&rt, walk.next(&g), Some(((0, 2), 3)));
    equal(&rt, walk.next(&g), Some(((1, 2), 6)));
    equal(&rt, walk.next(&g), None);
}

// Front and back in turn, until each row has come once.
#[test]
fn both_ends(rt: HostRuntime) {
    let mut memory = [0u8; 16];
    let g = lay(&mut memory, &[1, 2, 3, 4, 5, 6, 7, 8], 2, Order::RowMajor);
    let mut rows = iter_rows(&g);
    handed(&rt, rows.next_back(&g), &g, &[7, 8]);
    handed(&rt, rows.next(&g), &g, &[1, 2]);
    handed(&rt, rows.next_back(&g), &g, &[5, 6]);
    handed(&rt, rows.next_from(&g, End::Front), &g, &[3, 4]);
    equal(&rt, rows.next(&g), None);
    equal(&rt, rows.next_back(&g), None);
    let mut cols = [None; 3];
    let ends = [End::Front, End::Back, End::Back];
    let mut left = lines_from(&g, Axis::Col, &ends, &mut cols);
    handed(&rt, cols[0], &g, &[1, 3, 5, 7]);
    handed(&rt, cols[1], &g, &[2, 4, 6, 8]);
    equal(&rt, cols[2], None);
    equal(&rt, left.next_back(&g), None);
}

// Nothing comes of an empty grid.
#[test]
fn nothing_walked(rt: HostRuntime) {
    let mut memory = [0u8; 16];
    let g = lay(&mut memory, &[], 3, Order::ColumnMajor);
    equal(&rt, iter_row(&g, 0), Err(Refusal::Place));
    equal(&rt, iter_col(&g, 0), Err(Refusal::Place));
    equal(&rt, iter_rows(&g).next(&g), None);
    equal(&rt, iter_cols(&g).next_back(&g), None);
    equal(&rt, indexed_iter(&g).next(&g), None);
}

// Walks that are lent a smaller grid, and then their own again.
#[test]
fn lent_another(rt: HostRuntime) {
    let mut memory = [0u8; 16];
    let g = lay(&mut memory, &[1, 2, 3, 4, 5, 6], 3, Order::RowMajor);
    let mut memory = [0u8; 16];
    let small = lay(&mut memory, &[7, 8], 2, Order::RowMajor);
    let mut cells = indexed_iter(&g);
    equal(&rt, cells.next(&small), Some(((0, 0), 7)));
    equal(&rt, cells.next(&small), Some(((0, 1), 8)));
    equal(&rt, cells.next(&small), None);
    equal(&rt, cells.next(&g), Some(((0, 2), 3)));
    let mut rows = iter_rows(&g);
    handed(&rt, rows.next_back(&small), &small, &[7, 8]);
    equal(&rt, rows.next(&g), None);
    if let Ok(mut row) = iter_row(&g, 0) {
        equal(&rt, row.next(&small), Some(7));
        equal(&rt, row.next(&g), Some(2));
        equal(&rt, row.next(&small), None);
        equal(&rt, row.next(&g), Some(3));
        equal(&rt, row.next(&g), None);
    }
}

// A walk over rows while rows come and go.
#[test]
fn changed_since(rt: HostRuntime) {
    let mut memory = [0u8; 16];
    let mut g = lay(&mut memory, &[1, 2, 3, 4], 2, Order::RowMajor);
    let mut rows = iter_rows(&g);
    handed(&rt, rows.next(&g), &g, &[1, 2]);
    equal(&rt, g.insert_row(0, &[8, 9]), Ok(()));
    handed(&rt, rows.next(&g), &g, &[1, 2]);
    equal(&rt, rows.next(&g), None);
    let mut cells = indexed_iter(&g);
    g.clear();
    equal(&rt, cells.next(&g), None);
}
