// Blank lines added to a grid, after the rest or before it.
// kept: `stays` and `kept` stand on each call, since they speak of a grid before and after it, and no invariant does.
ghost use Rattle.std.specs.Prelude.{◌≡◌};
ghost use Rattle.cells.specs.Refusals.{answered, Kept};
ghost use Rattle.matrix.specs.Matrix.{Matrix, expand_rows, expand_cols, prepend_rows, prepend_cols};
ghost use Rattle.matrix.specs.Rules.{more_rows_answer, more_cols_answer};
ghost use Rattle.grid.specs.Grids.{matrix, limits, stored, Stays};

use crate::grid::Grid;
use cells::kinds::Kind;
use cells::refusal::Refusal;
use flat::calls;
use matrix::axis::Axis;

impl<'a, T: Kind> Grid<'a, T> {
    // n blank rows after the rest.
    pub fn expand_rows(&mut self, n: usize) -> Result<(), Refusal>
        ensures answer { result ≡ more_rows_answer (limits self.old) n (matrix self.old) }
        ensures effect { matrix self.new ≡ answered result (expand_rows n T.Kind.nothing (matrix self.old)) (matrix self.old) }
        ensures stays { Stays self.old self.new }
        ensures kept { Kept result (stored self.old) (stored self.new) }
    {
        let shape = self.shape;
        self.shape = calls::expand(self.cells, shape, Axis::Row, n, T::blank())?;
        Ok(())
    }

    // n blank columns after the rest.
    pub fn expand_cols(&mut self, n: usize) -> Result<(), Refusal>
        ensures answer { result ≡ more_cols_answer (limits self.old) n (matrix self.old) }
        ensures effect { matrix self.new ≡ answered result (expand_cols n T.Kind.nothing (matrix self.old)) (matrix self.old) }
        ensures stays { Stays self.old self.new }
        ensures kept { Kept result (stored self.old) (stored self.new) }
    {
        let shape = self.shape;
        self.shape = calls::expand(self.cells, shape, Axis::Col, n, T::blank())?;
        Ok(())
    }

    // n blank rows before the rest.
    pub fn prepend_rows(&mut self, n: usize) -> Result<(), Refusal>
        ensures answer { result ≡ more_rows_answer (limits self.old) n (matrix self.old) }
        ensures effect { matrix self.new ≡ answered result (prepend_rows n T.Kind.nothing (matrix self.old)) (matrix self.old) }
        ensures stays { Stays self.old self.new }
        ensures kept { Kept result (stored self.old) (stored self.new) }
    {
        let shape = self.shape;
        self.shape = calls::prepend(self.cells, shape, Axis::Row, n, T::blank())?;
        Ok(())
    }

    // n blank columns before the rest.
    pub fn prepend_cols(&mut self, n: usize) -> Result<(), Refusal>
        ensures answer { result ≡ more_cols_answer (limits self.old) n (matrix self.old) }
        ensures effect { matrix self.new ≡ answered result (prepend_cols n T.Kind.nothing (matrix self.old)) (matrix self.old) }
        ensures stays { Stays self.old self.new }
        ensures kept { Kept result (stored self.old) (stored self.new) }
    {
        let shape = self.shape;
        self.shape = calls::prepend(self.cells, shape, Axis::Col, n, T::blank())?;
        Ok(())
    }
}
