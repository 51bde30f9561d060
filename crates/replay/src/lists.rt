// A scorer's list on a new sheet.
// kept: `Holds` is a premise, since a world has a book, whose counts and earlier matrices no sheet stores.
ghost use Rattle.std.specs.Prelude.{◌≡◌, List, length, take, drop};
ghost use Rattle.replay.specs.World.{World, Holds, Ran, board_of, keep_of, started};
ghost use Rattle.replay.specs.Laws.{Law};

use crate::call::{Answer, Call, State};
use crate::steps::step;
use boards::board::Board;
use flat::calls::poke;
use keeps::keep::Keep;
use sheet::sheets::OpenSheet;

// What a list leaves: the board and the keep of its sheet, open or published, and how many edits are owed.
#[derive(Drop)]
pub struct Left<B, K> {
    pub board: B,
    pub keep: K,
    pub owed: usize,
}

// The calls in order, as many as there is room for answers.
// kept: lines and memory come as `replay` is handed them, each a slice of its caller's
fn run<B: Board, K: Keep<Cell = B::Cell>>(
    mut state: State<B, K>,
    calls: &[Call<B::Cell>],
    lines: &[B::Cell],
    memory: &mut [B::Cell],
    answers: &mut [Answer<B::Cell>],
) -> State<B, K>
    ensures ran { (w : World B.Cell) → Holds B.Board K.Keep state w → w.memory ≡ memory.old → Ran B.Board K.Keep result memory.new answers.old answers.new lines.now (take (length answers.old) calls.now) w }
{
    // kept: an index beside the calls: tried by `zip` with `iter_mut`, after which a proof knows nothing of what was written. By the
    // calls, as a loop over the answers would pass the places that no call is left for, and there may be many more of them. A
    // loop of its own beside those of the exchange and of lists of board calls: each call moves the state, which no closure holds.
    let n = calls.len().min(answers.len());
    for (k, call) in calls[..n].iter().enumerate() {
        let (next, answer) = step(state, *call, lines, memory);
        state = next;
        poke(answers, k, answer);
    }
    state
}

// The sheet's board and keep, and its count owed: a published sheet owes nothing.
fn parts<B: Board, K: Keep<Cell = B::Cell>>(state: State<B, K>) -> Left<B, K>
    ensures board { result.board ≡ board_of state }
    ensures keep { result.keep ≡ keep_of state }
    ensures owed { (w : World B.Cell) → Holds B.Board K.Keep state w → result.owed ≡ length w.book.entries }
{
    match state {
        State::Open(sheet) => {
            let owed = sheet.owed();
            let (board, keep) = sheet.into_parts();
            Left { board, keep, owed }
        }
        State::Published(sheet) => {
            let (board, keep) = sheet.into_parts();
            Left {
                board,
                keep,
                owed: 0,
            }
        }
    }
}

// Makes a sheet of the board and the keep and runs the list on it: as many of its calls as there is room for answers. Lines
// that go in are segments of `lines`, and memory that is handed over for a line is a segment of `memory`.
// kept: a caller has these as slices of its own; a struct of them would be built for this call and taken apart in it.
pub fn replay<B: Board, K: Keep<Cell = B::Cell>>(
    board: B,
    keep: K,
    calls: &[Call<B::Cell>],
    lines: &[B::Cell],
    memory: &mut [B::Cell],
    answers: &mut [Answer<B::Cell>],
) -> Left<B, K>
    ensures law { Law B.Board K.Keep result memory.new (take (length calls.now) answers.new) lines.now (take (length answers.old) calls.now) (started B.Board K.Keep board keep memory.old) }
    ensures rest { drop (length calls.now) answers.new ≡ drop (length calls.now) answers.old }
{
    let sheet = OpenSheet::new(board, keep);
    parts(run(State::Open(sheet), calls, lines, memory, answers))
}
