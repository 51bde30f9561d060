// A list on one sheet, and its exchange on another.
ghost use Rattle.std.specs.Prelude.{◌≡◌, List, map, length, take, drop};
ghost use Rattle.matrix.specs.Matrix.{over, turned};
ghost use Rattle.replay.specs.World.{started};
ghost use Rattle.replay.specs.Laws.{Law, Mirrored, exchange, room};

use crate::call::exchange::exchange_all;
use crate::call::{Answer, Call};
use crate::lists::{Left, replay};
use boards::board::Board;
use keeps::keep::Keep;

// Runs the list on a new sheet of the first board and keep, and its exchange, which it writes down in `exchanged`, on one of
// the others: as many calls as there is room for their exchange and for the answers of both.
// kept: eleven parameters: the two lists share calls and lines, and each has a board and a keep of its own types, memory and
// answers; a struct of those would be built for this call and taken apart in it.
pub fn replay_both<
    B: Board,
    K: Keep<Cell = B::Cell>,
    C: Board<Cell = B::Cell>,
    L: Keep<Cell = B::Cell>,
>(
    board: B,
    keep: K,
    other_board: C,
    other_keep: L,
    calls: &[Call<B::Cell>],
    exchanged: &mut [Call<B::Cell>],
    lines: &[B::Cell],
    memory: &mut [B::Cell],
    other_memory: &mut [B::Cell],
    answers: &mut [Answer<B::Cell>],
    other_answers: &mut [Answer<B::Cell>],
) -> (Left<B, K>, Left<C, L>)
    ensures law { let n = room calls.now exchanged.old answers.old other_answers.old in Law B.Board K.Keep result.0 memory.new (take n answers.new) lines.now (take n calls.now) (started B.Board K.Keep board keep memory.old) }
    ensures other { let n = room calls.now exchanged.old answers.old other_answers.old in Law C.Board L.Keep result.1 other_memory.new (take n other_answers.new) lines.now (map exchange (take n calls.now)) (started C.Board L.Keep other_board other_keep other_memory.old) }
    ensures mirrored { let n = room calls.now exchanged.old answers.old other_answers.old in C.Board.matrix other_board ≡ turned (B.Board.matrix board) → C.Board.limits other_board ≡ B.Board.limits board → (L.Keep.store other_keep).most ≡ (K.Keep.store keep).most → other_memory.old ≡ memory.old → Mirrored B.Board K.Keep C.Board L.Keep result.0 result.1 memory.new other_memory.new (take n answers.new) (take n other_answers.new) }
    ensures exchanged { exchanged.new ≡ over (map exchange (take (length exchanged.old) calls.now)) exchanged.old }
    ensures rest { let n = room calls.now exchanged.old answers.old other_answers.old in drop n answers.new ≡ drop n answers.old }
    ensures other_rest { let n = room calls.now exchanged.old answers.old other_answers.old in drop n other_answers.new ≡ drop n other_answers.old }
{
    let n = calls
        .len()
        .min(exchanged.len())
        .min(answers.len().min(other_answers.len()));
    exchange_all(calls, exchanged);
    let one = replay(board, keep, calls, lines, memory, &mut answers[..n]);
    let two = replay(
        other_board,
        other_keep,
        exchanged,
        lines,
        other_memory,
        &mut other_answers[..n],
    );
    (one, two)
}
