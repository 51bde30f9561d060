// The calls on a grid as a whole.
// kept: `stays` stands on each call, since it speaks of a grid before and after it, and no invariant does.
ghost use Rattle.std.specs.Prelude.{◌≡◌, ◌*◌, drop, true};
ghost use Rattle.matrix.specs.Matrix.{empty, filled};
ghost use Rattle.grid.specs.Grids.{matrix, Stays};

use crate::grid::Grid;
use cells::kinds::{Kind, same_cells};
use flat::calls;
use matrix::shape::Shape;

impl<'a, T: Copy> Grid<'a, T> {
    // No line is left. All flat cells are free then, and no clause speaks of them.
    pub fn clear(&mut self)
        ensures effect { matrix self.new ≡ empty }
        ensures stays { Stays self.old self.new }
    {
        self.shape = Shape::empty(self.shape.order);
    }

    // x in every place; the flat cells beyond R × C are as they were.
    pub fn fill(&mut self, x: T)
        ensures effect { matrix self.new ≡ filled (matrix self.old).rows (matrix self.old).cols x }
        ensures stays { Stays self.old self.new }
        ensures past { let m = matrix self.old in drop (m.rows * m.cols) self.new.cells.now ≡ drop (m.rows * m.cols) self.old.cells.now }
    {
        let shape = self.shape;
        calls::fill(self.cells, shape, x);
    }
}

impl<'a, T: Kind> Grid<'a, T> {
    // Yes exactly when both have one size and the same cell at each place, in whatever orders.
    pub fn same(&self, other: &Grid<'_, T>) -> bool
        ensures only { result ≡ true → matrix self.now ≡ matrix other.now }
        ensures all { matrix self.now ≡ matrix other.now → result ≡ true }
    {
        let (rows, cols) = self.size();
        if other.rows() != rows || other.cols() != cols {
            return false;
        }
        for r in 0..rows {
            for c in 0..cols {
                let mine = self.get(r, c);
                let theirs = other.get(r, c);
                if !same_cells(mine, theirs) {
                    return false;
                }
            }
        }
        true
    }
}
