// The grid is a board.
ghost use Rattle.matrix.specs.declared.limits.Limits.{Limits};
ghost use Rattle.grid.specs.Grids as grids;
ghost use Rattle.grid.proofs.Owes.{grid_within};

use crate::board::Board;
use cells::refusal::Refusal;
use grid::grid::Grid;
use matrix::axis::Axis;
use matrix::limits::Limits;

impl<'a, T: Copy> Board for Grid<'a, T> {
    type Cell = T;

    ghost matrix = { λ g. grids.matrix g };

    ghost limits = { λ g. grids.limits g };

    ghost within = { λ g. grid_within g };

    fn size(&self) -> (usize, usize) {
        Grid::size(self)
    }

    fn bounds(&self) -> Limits {
        Grid::limits(self)
    }

    fn get(&self, r: usize, c: usize) -> Option<T> {
        Grid::get(self, r, c)
    }

    fn put(&mut self, r: usize, c: usize, x: T) -> Result<(), Refusal> {
        Grid::put(self, r, c, x)
    }

    fn insert(&mut self, axis: Axis, i: usize, line: &[T]) -> Result<(), Refusal> {
        Grid::insert(self, axis, i, line)
    }

    fn remove(&mut self, axis: Axis, i: usize, memory: &mut [T]) -> Result<(), Refusal> {
        Grid::remove(self, axis, i, memory)
    }

    fn transpose(&mut self) {
        Grid::transpose(self)
    }

    fn flip(&mut self, axis: Axis) {
        Grid::flip(self, axis)
    }
}
