// Walks along one line.
ghost use Rattle.std.specs.Prelude.{◌≡◌};
ghost use Rattle.std.proofs.Common.{rules};
ghost use Rattle.cells.specs.Refusals.{answered};
ghost use Rattle.matrix.specs.Matrix.{row, col, over};
ghost use Rattle.matrix.specs.Axes.{line_of, remove_along};
ghost use Rattle.matrix.specs.declared.axis.Axis.TheVariants.{Row, Col};
ghost use Rattle.grid.specs.Grids.{matrix};
ghost use Rattle.walks.specs.Walks.{line_begun, moved, ahead, all_ahead};

use crate::walk::{Walk, read};
use cells::refusal::Refusal;
use grid::grid::Grid;
use matrix::axis::Axis;

// A walk along a line: its start is cell `at`, its step is one cell along the line, and `end - at` cells are left, where `end` is
// the place past its last cell.
#[derive(Clone, Copy, Debug, PartialEq, Eq)]
pub struct LineWalk {
    axis: Axis,
    line: usize,
    at: usize,
    end: usize,
}

// Line i along the axis, from first to last.
pub fn iter_line<T: Copy>(grid: &Grid<'_, T>, axis: Axis, i: usize) -> Result<LineWalk, Refusal>
    ensures answer { result ≡ line_begun axis i (matrix grid.now) }
    ensures line { all_ahead result (matrix grid.now) ≡ line_of axis i (matrix grid.now) }
{
    if grid.lines(axis) <= i {
        return Err(Refusal::Place);
    }
    Ok(LineWalk {
        axis,
        line: i,
        at: 0,
        end: grid.lines(axis.other()),
    })
}

pub fn iter_row<T: Copy>(grid: &Grid<'_, T>, r: usize) -> Result<LineWalk, Refusal>
    ensures answer { result ≡ line_begun Row r (matrix grid.now) }
    ensures line { all_ahead result (matrix grid.now) ≡ row r (matrix grid.now) }
{
    iter_line(grid, Axis::Row, r)
}

pub fn iter_col<T: Copy>(grid: &Grid<'_, T>, c: usize) -> Result<LineWalk, Refusal>
    ensures answer { result ≡ line_begun Col c (matrix grid.now) }
    ensures line { all_ahead result (matrix grid.now) ≡ col c (matrix grid.now) }
{
    iter_line(grid, Axis::Col, c)
}

impl<T: Copy> Walk<T> for LineWalk {
    type Item = T;

    ghost ahead = { λ w g. ahead w (matrix g) };

    ghost moved = { moved };

    ghost still = { Prim.search rules };

    ghost further = { Prim.search rules };

    fn next(&mut self, grid: &Grid<'_, T>) -> Option<T> {
        if self.end <= self.at {
            return None;
        }
        let (r, c) = self.axis.pair(self.line, self.at);
        let cell = grid.get(r, c)?;
        self.at += 1;
        Some(cell)
    }
}

// All of line i along the axis into the first cells of the memory: what `remove` hands out, but the grid stays as it is.
pub fn read_line<T: Copy>(
    grid: &Grid<'_, T>,
    axis: Axis,
    i: usize,
    memory: &mut [T],
) -> Result<(), Refusal>
    ensures answer { result ≡ remove_along axis i memory.old (matrix grid.now) }
    ensures line { memory.new ≡ answered result (over (line_of axis i (matrix grid.now)) memory.old) memory.old }
{
    let mut walk = iter_line(grid, axis, i)?;
    if memory.len() < grid.lines(axis.other()) {
        return Err(Refusal::Short);
    }
    read(&mut walk, grid, memory);
    Ok(())
}
