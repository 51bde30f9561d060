// Flat cells read in come out again.
ghost use Rattle.std.specs.Prelude.{◌≡◌, ℕ, ◌≤◌, length, take};
ghost use Rattle.cells.specs.Refusals.{answered};
ghost use Rattle.matrix.specs.Matrix.{over};
ghost use Rattle.matrix.specs.Shapes.{flat};
ghost use Rattle.matrix.specs.Rules.{from_vec_answer, from_vec};

use grid::grid::Grid;
use matrix::shape::Order;

// Makes a grid of n flat cells and ends it: where the check accepts, the same n cells come out, in the memory that
// went in, and they are the matrix in flat order.
// kept: memory and count as `from_vec` takes them and `into_vec` gives them.
pub fn round_trip<'a, T: Copy>(
    cells: &'a mut [T],
    n: usize,
    cols: usize,
    order: Order,
) -> (&'a mut [T], usize)
    ensures count { result.1 ≡ answered (from_vec_answer (length cells.old) n cols) n 0 }
    ensures flat { result.0.now ≡ over (flat order (from_vec order n cols cells.old)) result.0.now }
    ensures cells { result.0.now ≡ take 65536 cells.old }
    ensures memory { length cells.old ≤ 65536 → result.0.ghost_name ≡ cells.entry.ghost_name }
{
    Grid::from_vec_with_order(cells, n, cols, order).into_vec()
}
