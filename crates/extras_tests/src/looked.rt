// Looks at the grid A, which is 1 2 3 / 4 5 6, in cells that are lent for reading.
use crate::expect::equal;
use cells::refusal::Refusal;
use looks::look::Look;
use matrix::making::from_vec_check;
use matrix::shape::Order;
use std::alloc::AllocError;
use std::process::Abort;

// No line, no cell, and no part to hand out.
fn shows_nothing(rt: &impl Abort, look: &Look<'_, u8>) {
    equal(rt, look.size(), (0, 0));
    assert!(rt; look.is_empty());
    equal(rt, look.get(0, 0), None);
    equal(rt, look.row(0), None);
    equal(rt, look.col(0), None);
}

// A in both orders, with a cell that is none of it.
#[test]
fn asked(rt: HostRuntime) {
    let flat = [
        (Order::RowMajor, [1u8, 2, 3, 4, 5, 6, 9]),
        (Order::ColumnMajor, [1, 4, 2, 5, 3, 6, 9]),
    ];
    for (order, flat) in flat {
        let look = Look::from_vec_with_order(&flat, 6, 3, order);
        equal(&rt, look.size(), (2, 3));
        equal(&rt, look.rows(), 2);
        equal(&rt, look.cols(), 3);
        equal(&rt, look.order(), order);
        assert!(rt; !look.is_empty());
        equal(&rt, look.get(0, 0), Some(1));
        equal(&rt, look.get(0, 2), Some(3));
        equal(&rt, look.get(1, 0), Some(4));
        equal(&rt, look.get(1, 2), Some(6));
        equal(&rt, look.get(2, 0), None);
        equal(&rt, look.get(0, 3), None);
        equal(&rt, look.get(usize::MAX, usize::MAX), None);
    }
}

// Rows of a row-major look, and none of its columns.
#[test]
fn rows_lent(rt: HostRuntime) {
    let flat = [1u8, 2, 3, 4, 5, 6, 9];
    let look = Look::from_vec_with_order(&flat, 6, 3, Order::RowMajor);
    equal(&rt, look.row(0), Some(&[1u8, 2, 3][..]));
    equal(&rt, look.row(1), Some(&[4u8, 5, 6][..]));
    equal(&rt, look.row(2), None);
    equal(&rt, look.row(usize::MAX), None);
    equal(&rt, look.col(0), None);
    equal(&rt, look.col(2), None);
}

// Columns of a column-major look, and none of its rows.
#[test]
fn cols_lent(rt: HostRuntime) {
    let flat = [1u8, 4, 2, 5, 3, 6, 9];
    let look = Look::from_vec_with_order(&flat, 6, 3, Order::ColumnMajor);
    equal(&rt, look.col(0), Some(&[1u8, 4][..]));
    equal(&rt, look.col(2), Some(&[3u8, 6][..]));
    equal(&rt, look.col(3), None);
    equal(&rt, look.row(0), None);
    equal(&rt, look.row(1), None);
}

// A part outlives the look that handed it out.
#[test]
fn part_stays(rt: HostRuntime) {
    let flat = [1u8, 2, 3, 4, 5, 6];
    let second = {
        let look = Look::from_vec_with_order(&flat, 6, 2, Order::RowMajor);
        look.row(1)
    };
    equal(&rt, second, Some(&[3u8, 4][..]));
}

// Of a cell that is not copied, all but the cell by value.
#[test]
fn not_copied(rt: HostRuntime) {
    #[derive(Drop)]
    struct Plate(u8);
    let flat = [Plate(1), Plate(2), Plate(3), Plate(4)];
    let look = Look::from_vec_with_order(&flat, 4, 2, Order::ColumnMajor);
    equal(&rt, look.size(), (2, 2));
    assert!(rt; look.row(1).is_none());
    match look.col(1) {
        Some([a, b]) => {
            equal(&rt, a.0, 3);
            equal(&rt, b.0, 4);
        }
        _ => assert!(rt; false),
    }
}

// No cells, whatever the columns, and cells that make no lines.
#[test]
fn none_or_ragged(rt: HostRuntime) {
    let flat = [1u8, 2, 3, 4, 5];
    equal(&rt, from_vec_check(5, 0, 7), Ok(()));
    for order in [Order::RowMajor, Order::ColumnMajor] {
        shows_nothing(&rt, &Look::from_vec_with_order(&[], 0, 0, order));
        shows_nothing(&rt, &Look::from_vec_with_order(&flat, 0, 7, order));
        for cols in [0, 2, 6] {
            let look = Look::from_vec_with_order(&flat, 5, cols, order);
            equal(&rt, from_vec_check(5, 5, cols), Err(Refusal::Ragged));
            equal(&rt, look.order(), order);
            shows_nothing(&rt, &look);
        }
    }
}

// A cell too few, a side of 257, and the longest side there is.
#[test]
fn short_or_wide(rt: HostRuntime) {
    let flat = [7u8; 257];
    equal(&rt, from_vec_check(5, 6, 3), Err(Refusal::Full));
    let look = Look::from_vec_with_order(&flat[..5], 6, 3, Order::RowMajor);
    shows_nothing(&rt, &look);
    for cols in [1, 257] {
        equal(&rt, from_vec_check(257, 257, cols), Err(Refusal::Side));
        let look = Look::from_vec_with_order(&flat, 257, cols, Order::RowMajor);
        shows_nothing(&rt, &look);
    }
    let look = Look::from_vec_with_order(&flat, 256, 1, Order::RowMajor);
    equal(&rt, look.size(), (256, 1));
    equal(&rt, look.row(255), Some(&[7u8][..]));
    equal(&rt, look.row(256), None);
}

// More cells than a grid may have, and as many.
#[test]
fn memory(rt: HostRuntime) -> Result<(), AllocError> {
    let flat = vec![in rt.alloc(); 7u8; 65537]?;
    equal(&rt, from_vec_check(65537, 4, 2), Err(Refusal::Memory));
    let look = Look::from_vec_with_order(&flat, 4, 2, Order::RowMajor);
    shows_nothing(&rt, &look);
    let look = Look::from_vec_with_order(&flat[1..], 65536, 256, Order::ColumnMajor);
    equal(&rt, look.size(), (256, 256));
    equal(&rt, look.get(255, 255), Some(7));
    Ok(())
}
