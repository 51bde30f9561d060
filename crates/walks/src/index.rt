// A walk over all cells with their places.
ghost use Rattle.std.specs.Prelude.{◌≡◌, ◌*◌, length, take, min};
ghost use Rattle.std.proofs.Common.{rules};
ghost use Rattle.matrix.specs.Matrix.{over};
ghost use Rattle.grid.specs.Grids.{matrix, order};
ghost use Rattle.walks.specs.Indexed.{flat_item, all_items, ahead, moved, InFlatOrder};

use crate::walk::{Walk, read};
use grid::grid::Grid;
use matrix::shape::Order;

// A walk over the flat cells of a grid: its start is flat place `at`, its step is one place, and `end - at` cells are left, where
// `end` is the place past the last. Row and column are those that the grid lent has at that flat place.
#[derive(Clone, Copy, Debug, PartialEq, Eq)]
pub struct IndexWalk {
    at: usize,
    end: usize,
}

// Every cell with its place, in the order in which they lie.
pub fn indexed_iter<T: Copy>(grid: &Grid<'_, T>) -> IndexWalk
    ensures answer { result ≡ record { at = 0; end = (matrix grid.now).rows * (matrix grid.now).cols } }
    ensures items { ahead result (order grid.now) (matrix grid.now) ≡ all_items (order grid.now) (matrix grid.now) }
    ensures cells { InFlatOrder (order grid.now) (matrix grid.now) (all_items (order grid.now) (matrix grid.now)) }
{
    let (rows, cols) = grid.size();
    IndexWalk {
        at: 0,
        end: rows * cols,
    }
}

// Flat cell k with its place, absent past the last.
fn item<T: Copy>(grid: &Grid<'_, T>, k: usize) -> Option<((usize, usize), T)>
    ensures answer { result ≡ flat_item (order grid.now) (matrix grid.now) k }
{
    let (rows, cols) = grid.size();
    if rows == 0 || cols == 0 {
        return None;
    }
    let (r, c) = match grid.order() {
        Order::RowMajor => (k / cols, k % cols),
        Order::ColumnMajor => (k % rows, k / rows),
    };
    let cell = grid.get(r, c)?;
    Some(((r, c), cell))
}

impl<T: Copy> Walk<T> for IndexWalk {
    type Item = ((usize, usize), T);

    ghost ahead = { λ w g. ahead w (order g) (matrix g) };

    ghost moved = { moved };

    ghost still = { Prim.search rules };

    ghost further = { Prim.search rules };

    fn next(&mut self, grid: &Grid<'_, T>) -> Option<((usize, usize), T)> {
        if self.end <= self.at {
            return None;
        }
        let item = item(grid, self.at)?;
        self.at += 1;
        Some(item)
    }
}

// Every cell with its place into the first items of the memory, as many as there is room for; how many came.
pub fn read_cells<T: Copy>(grid: &Grid<'_, T>, memory: &mut [((usize, usize), T)]) -> usize
    ensures answer { result ≡ min (length memory.old) ((matrix grid.now).rows * (matrix grid.now).cols) }
    ensures line { memory.new ≡ over (take (length memory.old) (all_items (order grid.now) (matrix grid.now))) memory.old }
    ensures cells { InFlatOrder (order grid.now) (matrix grid.now) (all_items (order grid.now) (matrix grid.now)) }
{
    let mut walk = indexed_iter(grid);
    read(&mut walk, grid, memory)
}
