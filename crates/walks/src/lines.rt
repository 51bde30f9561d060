// Walks over lines from both ends.
ghost use Rattle.std.specs.Prelude.{◌≡◌, length, take, map};
ghost use Rattle.std.proofs.Common.{rules};
ghost use Rattle.matrix.specs.Matrix.{over};
ghost use Rattle.matrix.specs.Runs.{after};
ghost use Rattle.matrix.specs.declared.axis.Axis.TheVariants.{Row, Col};
ghost use Rattle.grid.specs.Grids.{matrix};
ghost use Rattle.walks.specs.Walks as line;
ghost use Rattle.walks.specs.declared.lines.End.TheVariants.{Front, Back};
ghost use Rattle.walks.specs.Ends.{reply, next, given, left, Once, whole, all_lines, all_cells, ahead, moved, stepped};

use crate::line::{LineWalk, iter_line};
use crate::walk::Walk;
use grid::grid::Grid;
use matrix::axis::Axis;

// From which end of a walk a line is taken.
#[derive(Clone, Copy, Debug, PartialEq, Eq)]
pub enum End {
    Front,
    Back,
}

// A walk over lines along an axis: those from `front` on and before `back` are left. Each is handed out as a walk along it.
#[derive(Clone, Copy, Debug, PartialEq, Eq)]
pub struct LinesWalk {
    axis: Axis,
    front: usize,
    back: usize,
}

// All lines along the axis, each to be handed out once, from either end.
pub fn iter_lines<T: Copy>(grid: &Grid<'_, T>, axis: Axis) -> LinesWalk
    ensures answer { result ≡ whole axis (matrix grid.now) }
    ensures lines { ahead result (matrix grid.now) ≡ all_lines axis (matrix grid.now) }
    ensures cells { map (λ w. line.ahead w (matrix grid.now)) (all_lines axis (matrix grid.now)) ≡ all_cells axis (matrix grid.now) }
{
    LinesWalk {
        axis,
        front: 0,
        back: grid.lines(axis),
    }
}

pub fn iter_rows<T: Copy>(grid: &Grid<'_, T>) -> LinesWalk
    ensures answer { result ≡ whole Row (matrix grid.now) }
    ensures lines { ahead result (matrix grid.now) ≡ all_lines Row (matrix grid.now) }
    ensures cells { map (λ w. line.ahead w (matrix grid.now)) (all_lines Row (matrix grid.now)) ≡ all_cells Row (matrix grid.now) }
{
    iter_lines(grid, Axis::Row)
}

pub fn iter_cols<T: Copy>(grid: &Grid<'_, T>) -> LinesWalk
    ensures answer { result ≡ whole Col (matrix grid.now) }
    ensures lines { ahead result (matrix grid.now) ≡ all_lines Col (matrix grid.now) }
    ensures cells { map (λ w. line.ahead w (matrix grid.now)) (all_lines Col (matrix grid.now)) ≡ all_cells Col (matrix grid.now) }
{
    iter_lines(grid, Axis::Col)
}

impl<T: Copy> Walk<T> for LinesWalk {
    type Item = LineWalk;

    ghost ahead = { λ w g. ahead w (matrix g) };

    ghost moved = { moved };

    ghost still = { Prim.search rules };

    ghost further = { Prim.search rules };

    fn next(&mut self, grid: &Grid<'_, T>) -> Option<LineWalk> {
        if self.back <= self.front {
            return None;
        }
        let line = iter_line(grid, self.axis, self.front).ok()?;
        self.front += 1;
        Some(line)
    }
}

impl LinesWalk {
    // The last line still to come, and the walk ends before it; absent where none is, and then the walk stays.
    pub fn next_back<T: Copy>(&mut self, grid: &Grid<'_, T>) -> Option<LineWalk>
        ensures answer { result ≡ reply Back (ahead self.old (matrix grid.now)) }
        ensures effect { self.new ≡ stepped (matrix grid.now) Back self.old }
        ensures rest { ahead self.new (matrix grid.now) ≡ next Back (ahead self.old (matrix grid.now)) }
    {
        let end = self.back.min(grid.lines(self.axis));
        if end <= self.front {
            return None;
        }
        self.back = end - 1;
        iter_line(grid, self.axis, end - 1).ok()
    }

    // A line from that end.
    pub fn next_from<T: Copy>(&mut self, grid: &Grid<'_, T>, end: End) -> Option<LineWalk>
        ensures answer { result ≡ reply end (ahead self.old (matrix grid.now)) }
        ensures effect { self.new ≡ stepped (matrix grid.now) end self.old }
        ensures rest { ahead self.new (matrix grid.now) ≡ next end (ahead self.old (matrix grid.now)) }
    {
        match end {
            End::Front => self.next(grid),
            End::Back => self.next_back(grid),
        }
    }

    // Takes a line from each end that is named, in order, as many as there is room for, and writes the answers down.
    pub fn take_from<T: Copy>(
        &mut self,
        grid: &Grid<'_, T>,
        ends: &[End],
        lines: &mut [Option<LineWalk>],
    )
        ensures effect { self.new ≡ after (stepped (matrix grid.now)) (take (length lines.old) ends.now) self.old }
        ensures line { lines.new ≡ over (given (take (length lines.old) ends.now) (ahead self.old (matrix grid.now))) lines.old }
        ensures rest { ahead self.new (matrix grid.now) ≡ left (take (length lines.old) ends.now) (ahead self.old (matrix grid.now)) }
        ensures once { Once (take (length lines.old) ends.now) (ahead self.old (matrix grid.now)) (ahead self.new (matrix grid.now)) }
    {
        for (k, line) in lines.iter_mut().enumerate() {
            if let Some(end) = ends.get(k) {
                *line = self.next_from(grid, *end);
            }
        }
    }
}

// Lines along the axis from each end that is named, in order, as many as there is room for; what is left of them.
pub fn lines_from<T: Copy>(
    grid: &Grid<'_, T>,
    axis: Axis,
    ends: &[End],
    lines: &mut [Option<LineWalk>],
) -> LinesWalk
    ensures answer { result ≡ after (stepped (matrix grid.now)) (take (length lines.old) ends.now) (whole axis (matrix grid.now)) }
    ensures line { lines.new ≡ over (given (take (length lines.old) ends.now) (all_lines axis (matrix grid.now))) lines.old }
    ensures rest { ahead result (matrix grid.now) ≡ left (take (length lines.old) ends.now) (all_lines axis (matrix grid.now)) }
    ensures once { Once (take (length lines.old) ends.now) (all_lines axis (matrix grid.now)) (ahead result (matrix grid.now)) }
{
    let mut walk = iter_lines(grid, axis);
    walk.take_from(grid, ends, lines);
    walk
}
