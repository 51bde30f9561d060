// The turned board: it stands over any board, and its rows are that board's columns.
ghost use Rattle.std.specs.Prelude.{◌≡◌};
ghost use Rattle.matrix.specs.Matrix.{Matrix, turned};
ghost use Rattle.matrix.proofs.Held.{within_turned};

use crate::board::Board;
use cells::refusal::Refusal;
use matrix::axis::Axis;
use matrix::limits::Limits;

// Each call goes down as its exchange.
#[derive(Drop)]
pub struct TurnedBoard<B> {
    lower: B,
}

impl<B: Board> TurnedBoard<B> {
    pub fn over(lower: B) -> TurnedBoard<B>
        ensures lower { result.lower ≡ lower }
    {
        TurnedBoard { lower }
    }

    pub fn into_lower(self) -> B
        ensures lower { result ≡ self.lower }
    {
        let TurnedBoard { lower } = self;
        lower
    }
}

impl<B: Board> Board for TurnedBoard<B> {
    type Cell = B::Cell;

    ghost matrix = { λ b. turned (B.Board.matrix b.lower) };

    ghost limits = { λ b. B.Board.limits b.lower };

    ghost within = { λ b. within_turned (B.Board.within b.lower) };

    fn size(&self) -> (usize, usize) {
        let (rows, cols) = self.lower.size();
        (cols, rows)
    }

    fn bounds(&self) -> Limits {
        self.lower.bounds()
    }

    fn get(&self, r: usize, c: usize) -> Option<B::Cell> {
        self.lower.get(c, r)
    }

    fn put(&mut self, r: usize, c: usize, x: B::Cell) -> Result<(), Refusal> {
        self.lower.put(c, r, x)
    }

    fn insert(&mut self, axis: Axis, i: usize, line: &[B::Cell]) -> Result<(), Refusal> {
        self.lower.insert(axis.other(), i, line)
    }

    fn remove(&mut self, axis: Axis, i: usize, memory: &mut [B::Cell]) -> Result<(), Refusal> {
        self.lower.remove(axis.other(), i, memory)
    }

    fn transpose(&mut self) {
        self.lower.transpose()
    }

    fn flip(&mut self, axis: Axis) {
        self.lower.flip(axis.other())
    }
}
