// Rows or columns.
ghost use Rattle.std.specs.Prelude.{◌≡◌};
ghost use Rattle.matrix.specs.Axes.{other, beneath, pair};

// Along which lines a call goes: rows, or columns as rows of the matrix turned.
#[derive(Clone, Copy, Debug, PartialEq, Eq)]
pub enum Axis {
    Row,
    Col,
}

impl Axis {
    // kept: no derive gives the other of two variants; an `impl` of `Not` would have this body under `!axis`, and name nothing.
    pub fn other(self) -> Axis
        ensures answer { result ≡ other self }
    {
        match self {
            Axis::Row => Axis::Col,
            Axis::Col => Axis::Row,
        }
    }

    // The axis that this one is beneath, where the rows are lines along `facing`.
    pub fn beneath(self, facing: Axis) -> Axis
        ensures answer { result ≡ beneath facing self }
    {
        match facing {
            Axis::Row => self,
            Axis::Col => self.other(),
        }
    }

    // Of a row's and a column's, the one along the axis first. Asked once more, it gives back what it was given.
    pub fn pair<A>(self, row: A, col: A) -> (A, A)
        ensures answer { result ≡ pair self row col }
    {
        match self {
            Axis::Row => (row, col),
            Axis::Col => (col, row),
        }
    }
}
