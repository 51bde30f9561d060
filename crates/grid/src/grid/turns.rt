// The calls that turn a grid and flip it.
// kept: `stays` and `crosses` stand on each call, since they speak of a grid before and after it, and no invariant does.
ghost use Rattle.std.specs.Prelude.{◌≡◌};
ghost use Rattle.matrix.specs.Matrix.{turned, flip_rows, flip_cols, rotate_left, rotate_right, rotate_half};
ghost use Rattle.matrix.specs.Axes.{flipped};
ghost use Rattle.grid.specs.Grids.{matrix, Stays, Crosses};

use crate::grid::Grid;
use flat::calls;
use matrix::axis::Axis;

impl<'a, T: Copy> Grid<'a, T> {
    // Rows become columns: the order becomes the other one, and no cell moves.
    pub fn transpose(&mut self)
        ensures effect { matrix self.new ≡ turned (matrix self.old) }
        ensures crosses { Crosses self.old self.new }
        ensures still { self.new.cells.now ≡ self.old.cells.now }
    {
        self.shape = self.shape.turned();
    }

    // The last line along the axis comes first.
    pub fn flip(&mut self, axis: Axis)
        ensures effect { matrix self.new ≡ flipped axis (matrix self.old) }
        ensures stays { Stays self.old self.new }
    {
        let shape = self.shape;
        calls::flip(self.cells, shape, axis);
    }

    // kept: the two flips by the names that users of a grid know.
    // The last row comes first.
    pub fn flip_rows(&mut self)
        ensures effect { matrix self.new ≡ flip_rows (matrix self.old) }
        ensures stays { Stays self.old self.new }
    {
        self.flip(Axis::Row);
    }

    // The last column comes first.
    pub fn flip_cols(&mut self)
        ensures effect { matrix self.new ≡ flip_cols (matrix self.old) }
        ensures stays { Stays self.old self.new }
    {
        self.flip(Axis::Col);
    }

    // A quarter turn against the clock. It shares the transposition alone with the turn the other way.
    pub fn rotate_left(&mut self)
        ensures effect { matrix self.new ≡ rotate_left (matrix self.old) }
        ensures crosses { Crosses self.old self.new }
    {
        self.transpose();
        self.flip_rows();
    }

    // A quarter turn with the clock.
    pub fn rotate_right(&mut self)
        ensures effect { matrix self.new ≡ rotate_right (matrix self.old) }
        ensures crosses { Crosses self.old self.new }
    {
        self.transpose();
        self.flip_cols();
    }

    // Half a turn.
    pub fn rotate_half(&mut self)
        ensures effect { matrix self.new ≡ rotate_half (matrix self.old) }
        ensures stays { Stays self.old self.new }
    {
        let shape = self.shape;
        calls::rotate_half(self.cells, shape);
    }
}
