// The examples of the original's documentation, for the calls that stand here.
//
// The original's `==` of two grids is `shows` here, its None and its panic are refusals, and `flatten` is `into_vec`.
// The examples of `iter_row`, `iter_col`, `iter_rows` and `iter_cols` are in walked.rt, and that of `map_ref` is with the tests of
// grids mapped.
// These examples have no counterpart:
// - `grid!` and `grid_cm!` with rows of unequal length, which do not compile: there is no macro here that makes a grid;
// - `iter`, `iter_mut`, `iter_row_mut`, `iter_col_mut`, `indexed_iter_mut` and `indexed_into_iter`, the last two with two
//   examples each: there are no walks here that go by flat cells alone, that change a grid or that end it;
// - `fill_with`, which takes a closure, and `map`, which ends its grid: its example is that of `map_ref`.
use crate::expect::{equal, *};
use cells::refusal::Refusal;
use grid::grid::Grid;
use matrix::making::{from_vec_check, new_check};
use matrix::shape::Order;
use walks::index::indexed_iter;
use walks::walk::Walk;

// `new`, `from_vec`, `is_empty`, `grid!` of three rows, and the example of the front page.
#[test]
fn making(rt: HostRuntime) {
    let mut memory = [9u8; 16];
    equal(&rt, new_check(16, 2, 3), Ok(()));
    let g = Grid::new(&mut memory, 2, 3);
    shows(&rt, &g, 3, &[0, 0, 0, 0, 0, 0]);
    equal(&rt, from_vec_check(16, 5, 3), Err(Refusal::Ragged));
    let mut memory = [0u8; 16];
    let g = lay(&mut memory, &[], 0, Order::RowMajor);
    assert!(rt; g.is_empty());
    let mut memory = [0u8; 16];
    let mut g = lay(&mut memory, &[1, 2, 3, 4, 5, 6], 3, Order::RowMajor);
    equal(&rt, g.size(), (2, 3));
    equal(&rt, g.get(0, 2), Some(3));
    equal(&rt, g.get(1, 1), Some(5));
    equal(&rt, g.push_row(&[7, 8, 9]), Ok(()));
    equal(&rt, g.size(), (3, 3));
    ended(&rt, g, &[1, 2, 3, 4, 5, 6, 7, 8, 9]);
}

// `grid_cm!`, which pushes the rows of a column-major grid one by one.
#[test]
fn by_columns(rt: HostRuntime) {
    let mut memory = [0u8; 16];
    let mut g = lay(&mut memory, &[], 3, Order::ColumnMajor);
    equal(&rt, g.push_row(&[1, 2, 3]), Ok(()));
    equal(&rt, g.push_row(&[4, 5, 6]), Ok(()));
    equal(&rt, g.push_row(&[7, 8, 9]), Ok(()));
    equal(&rt, g.size(), (3, 3));
    equal(&rt, g.get(1, 1), Some(5));
    ended(&rt, g, &[1, 4, 7, 2, 5, 8, 3, 6, 9]);
}

// `push_row` and `push_col`, also on an empty grid.
#[test]
fn pushed(rt: HostRuntime) {
    let mut memory = [0u8; 16];
    let mut g = lay(&mut memory, &[1, 2, 3, 3, 4, 5], 3, Order::RowMajor);
    equal(&rt, g.push_row(&[6, 7, 8]), Ok(()));
    equal(&rt, g.rows(), 3);
    ended(&rt, g, &[1, 2, 3, 3, 4, 5, 6, 7, 8]);
    let mut memory = [0u8; 16];
    let mut g = lay(&mut memory, &[1, 2, 3, 3, 4, 5], 3, Order::RowMajor);
    equal(&rt, g.push_col(&[4, 6]), Ok(()));
    equal(&rt, g.cols(), 4);
    ended(&rt, g, &[1, 2, 3, 4, 3, 4, 5, 6]);
    let mut memory = [0u8; 16];
    let mut g = lay(&mut memory, &[], 0, Order::RowMajor);
    equal(&rt, g.push_row(&[1, 2, 3]), Ok(()));
    equal(&rt, g.size(), (1, 3));
    let mut memory = [0u8; 16];
    let mut g = lay(&mut memory, &[], 0, Order::RowMajor);
    equal(&rt, g.push_col(&[1, 2, 3]), Ok(()));
    equal(&rt, g.size(), (3, 1));
}

#[test]
fn popped(rt: HostRuntime) {
    let mut memory = [0u8; 16];
    let mut line = [0u8; 4];
    let mut g = lay(&mut memory, &[1, 2, 3, 4, 5, 6], 3, Order::RowMajor);
    took(&rt, g.pop_row(&mut line), &line, &[4, 5, 6]);
    took(&rt, g.pop_row(&mut line), &line, &[1, 2, 3]);
    equal(&rt, g.pop_row(&mut line), Err(Refusal::Place));
    let mut memory = [0u8; 16];
    let mut g = lay(&mut memory, &[1, 2, 3, 4, 5, 6], 3, Order::RowMajor);
    took(&rt, g.pop_col(&mut line), &line, &[3, 6]);
    took(&rt, g.pop_col(&mut line), &line, &[2, 5]);
    took(&rt, g.pop_col(&mut line), &line, &[1, 4]);
    equal(&rt, g.pop_col(&mut line), Err(Refusal::Place));
}

#[test]
fn removed(rt: HostRuntime) {
    let mut memory = [0u8; 16];
    let mut line = [0u8; 4];
    let mut g = lay(&mut memory, &[1, 2, 3, 4, 5, 6], 2, Order::RowMajor);
    took(&rt, g.remove_row(1, &mut line), &line, &[3, 4]);
    took(&rt, g.remove_row(0, &mut line), &line, &[1, 2]);
    took(&rt, g.remove_row(0, &mut line), &line, &[5, 6]);
    equal(&rt, g.remove_row(0, &mut line), Err(Refusal::Place));
    let mut memory = [0u8; 16];
    let mut g = sixteen(&mut memory);
    took(&rt, g.remove_col(3, &mut line), &line, &[4, 8, 12, 16]);
    took(&rt, g.remove_col(0, &mut line), &line, &[1, 5, 9, 13]);
    took(&rt, g.remove_col(1, &mut line), &line, &[3, 7, 11, 15]);
    took(&rt, g.remove_col(0, &mut line), &line, &[2, 6, 10, 14]);
    equal(&rt, g.remove_col(0, &mut line), Err(Refusal::Place));
}

fn sixteen(memory: &mut [u8]) -> Grid<'_, u8> {
    let flat = [1, 2, 3, 4, 5, 6, 7, 8, 9, 10, 11, 12, 13, 14, 15, 16];
    lay(memory, &flat, 4, Order::RowMajor)
}

#[test]
fn deleted(rt: HostRuntime) {
    let mut memory = [0u8; 16];
    let mut g = lay(&mut memory, &[1, 2, 3, 4, 5, 6], 2, Order::RowMajor);
    assert!(rt; g.delete_row(1));
    shows(&rt, &g, 2, &[1, 2, 5, 6]);
    assert!(rt; g.delete_row(0));
    shows(&rt, &g, 2, &[5, 6]);
    assert!(rt; g.delete_row(0));
    assert!(rt; g.is_empty());
    assert!(rt; !g.delete_row(0));
    let mut memory = [0u8; 16];
    let mut g = sixteen(&mut memory);
    assert!(rt; g.delete_col(3));
    shows(&rt, &g, 3, &[1, 2, 3, 5, 6, 7, 9, 10, 11, 13, 14, 15]);
    assert!(rt; g.delete_col(0));
    shows(&rt, &g, 2, &[2, 3, 6, 7, 10, 11, 14, 15]);
}

#[test]
fn inserted(rt: HostRuntime) {
    let mut memory = [0u8; 16];
    let mut g = lay(&mut memory, &[1, 2, 3, 4, 5, 6], 3, Order::RowMajor);
    equal(&rt, g.insert_row(1, &[7, 8, 9]), Ok(()));
    shows(&rt, &g, 3, &[1, 2, 3, 7, 8, 9, 4, 5, 6]);
    let mut memory = [0u8; 16];
    let mut g = lay(&mut memory, &[1, 2, 3, 4, 5, 6], 3, Order::RowMajor);
    equal(&rt, g.insert_col(1, &[9, 9]), Ok(()));
    shows(&rt, &g, 4, &[1, 9, 2, 3, 4, 9, 5, 6]);
}

// The flips and the half turn, each on the grid of its example, and the rows as columns.
#[test]
fn flipped(rt: HostRuntime) {
    let mut memory = [0u8; 16];
    let mut g = lay(&mut memory, &[1, 2, 3, 4, 5, 6], 3, Order::RowMajor);
    g.flip_cols();
    shows(&rt, &g, 3, &[3, 2, 1, 6, 5, 4]);
    g.flip_cols();
    g.flip_rows();
    shows(&rt, &g, 3, &[4, 5, 6, 1, 2, 3]);
    g.flip_rows();
    g.rotate_half();
    shows(&rt, &g, 3, &[6, 5, 4, 3, 2, 1]);
    g.transpose();
    shows(&rt, &g, 2, &[6, 3, 5, 2, 4, 1]);
}

#[test]
fn rotated(rt: HostRuntime) {
    let mut memory = [0u8; 16];
    let mut g = lay(&mut memory, &[1, 2, 3, 4], 2, Order::RowMajor);
    g.rotate_left();
    shows(&rt, &g, 2, &[2, 4, 1, 3]);
    let mut memory = [0u8; 16];
    let mut g = lay(&mut memory, &[1, 2, 3, 4], 2, Order::RowMajor);
    g.rotate_right();
    shows(&rt, &g, 2, &[3, 1, 4, 2]);
}

#[test]
fn filled(rt: HostRuntime) {
    let mut memory = [0u8; 16];
    let mut g = lay(&mut memory, &[1, 2, 3, 4, 5, 6], 3, Order::RowMajor);
    g.fill(7);
    shows(&rt, &g, 3, &[7, 7, 7, 7, 7, 7]);
}

// `flatten`.
#[test]
fn flattened(rt: HostRuntime) {
    let mut memory = [0u8; 16];
    let g = lay(&mut memory, &[1, 2, 3, 4, 5, 6], 3, Order::RowMajor);
    ended(&rt, g, &[1, 2, 3, 4, 5, 6]);
}

// `indexed_iter`: its first cell, and the loop over all of them.
#[test]
fn indexed(rt: HostRuntime) {
    let mut memory = [0u8; 16];
    let g = lay(&mut memory, &[1, 2, 3, 4], 2, Order::RowMajor);
    let mut walk = indexed_iter(&g);
    for item in [((0, 0), 1), ((0, 1), 2), ((1, 0), 3), ((1, 1), 4)] {
        equal(&rt, walk.next(&g), Some(item));
    }
    equal(&rt, walk.next(&g), None);
}

// `expand_rows`, `expand_cols`, `prepend_rows` and `prepend_cols`, each on the grid of its example.
#[test]
fn spaced(rt: HostRuntime) {
    let flat = [1, 2, 3, 3, 4, 5];
    let mut memory = [9u8; 16];
    let mut g = lay(&mut memory, &flat, 3, Order::RowMajor);
    equal(&rt, g.expand_rows(2), Ok(()));
    shows(&rt, &g, 3, &[1, 2, 3, 3, 4, 5, 0, 0, 0, 0, 0, 0]);
    let mut memory = [9u8; 16];
    let mut g = lay(&mut memory, &flat, 3, Order::RowMajor);
    equal(&rt, g.expand_cols(2), Ok(()));
    shows(&rt, &g, 5, &[1, 2, 3, 0, 0, 3, 4, 5, 0, 0]);
    let mut memory = [9u8; 16];
    let mut g = lay(&mut memory, &flat, 3, Order::RowMajor);
    equal(&rt, g.prepend_rows(2), Ok(()));
    shows(&rt, &g, 3, &[0, 0, 0, 0, 0, 0, 1, 2, 3, 3, 4, 5]);
    let mut memory = [9u8; 16];
    let mut g = lay(&mut memory, &flat, 3, Order::RowMajor);
    equal(&rt, g.prepend_cols(2), Ok(()));
    shows(&rt, &g, 5, &[0, 0, 1, 2, 3, 0, 0, 3, 4, 5]);
}
