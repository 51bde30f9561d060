// A list run on a board and a keep over memory of its own.
ghost use Rattle.std.specs.Prelude.{◌≡◌, IfOk, length, take};
ghost use Rattle.matrix.specs.Matrix.{over};
ghost use Rattle.scoresheet.specs.Rows.{rows_said, rows_laid};
ghost use Rattle.scoresheet.specs.Plays.{Plays, keep_limit};

use crate::answers::Played;
use crate::script::Supply;
use boards::board::Board;
use cells::kinds::Kind;
use cells::refusal::Refusal;
use keeps::joined::JoinedKeep;
use keeps::keep::Keep;
use keeps::stack::StackKeep;
use layouts::over::Work;
use listing::call::Keeping;
use listing::written::Written;
use matrix::axis::Axis;
use matrix::limits::CELLS;
use replay::call::Call;
use replay::lists::replay;
use std::alloc::{AllocError, Global};

// A list as the library takes it, that is the rows under the sheet, its calls, and the cells that go in by either; the keep that
// it is run with; and what it is to answer.
#[derive(Drop)]
pub struct Run<'a, T: Drop> {
    pub heap: Global,
    pub keeping: Keeping,
    pub supply: &'a Supply<T>,
    pub calls: &'a [Call<T>],
    pub played: Played<T>,
}

impl<T: Written> Work<T> for Run<'_, T> {
    type Out = Result<Played<T>, AllocError>;

    ghost gives = { λ run matrix limits result. IfOk result (λ played. Plays run matrix limits (keep_limit run.keeping) played) };

    // Makes the keep. More memory than a keep has cells changes nothing.
    fn on<B: Board<Cell = T> + Drop>(self, board: B) -> Result<Played<T>, AllocError> {
        match self.keeping {
            Keeping::Stack(most) => {
                let mut room = vec![in self.heap; T::blank(); most.min(CELLS)]?;
                Ok(self.on_keep(board, StackKeep::new(room.as_mut_slice())))
            }
            Keeping::Joined(first, second) => {
                let mut room = vec![in self.heap; T::blank(); first.min(CELLS)]?;
                let mut more = vec![in self.heap; T::blank(); second.min(CELLS)]?;
                let first = StackKeep::new(room.as_mut_slice());
                let second = StackKeep::new(more.as_mut_slice());
                Ok(self.on_keep(board, JoinedKeep::new(first, second)))
            }
        }
    }
}

impl<T: Written> Run<'_, T> {
    // The rows that lie under the sheet, and then the sheet's own calls.
    fn on_keep<B: Board<Cell = T> + Drop, K: Keep<Cell = T> + Drop>(
        self,
        mut board: B,
        keep: K,
    ) -> Played<T>
        ensures plays { Plays self.entry (B.Board.matrix board) (B.Board.limits board) (K.Keep.store keep).most result }
    {
        let mut played = self.played;
        lay(self.supply, &mut board, played.starts.as_mut_slice());
        let _ = replay(
            board,
            keep,
            self.calls,
            self.supply.cells.as_slice(),
            played.memory.as_mut_slice(),
            played.answers.as_mut_slice(),
        );
        played
    }
}

// Puts the rows under a sheet onto its board, each after those that there are: as many as there is room for answers.
fn lay<T: Written, B: Board<Cell = T>>(
    supply: &Supply<T>,
    board: &mut B,
    starts: &mut [Result<(), Refusal>],
)
    ensures answer { starts.new ≡ over (rows_said (B.Board.limits board.old) supply.now.cells.items (take (length starts.old) supply.now.starts.items) (B.Board.matrix board.old)) starts.old }
    ensures effect { B.Board.matrix board.new ≡ rows_laid (B.Board.limits board.old) supply.now.cells.items (take (length starts.old) supply.now.starts.items) (B.Board.matrix board.old) }
    ensures limits { B.Board.limits board.new ≡ B.Board.limits board.old }
{
    // kept: an index beside the answers: tried by `zip` with `iter_mut`, after which a proof knows nothing of what was written
    let rows = supply.starts.as_slice();
    let cells = supply.cells.as_slice();
    for (k, said) in starts.iter_mut().enumerate() {
        if let Some(row) = rows.get(k) {
            let (last, _) = board.size();
            *said = board.insert(Axis::Row, last, row.of(cells));
        }
    }
}
