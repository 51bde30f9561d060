// Running a list of board calls, and two boards beside each other.
// kept: `limits` on each call, since it speaks of a board before and after the call, and an invariant speaks of one value.
ghost use Rattle.std.specs.Prelude.{◌≡◌, ℕ, List, length, take};
ghost use Rattle.matrix.specs.Matrix.{Matrix, over};
ghost use Rattle.uses.specs.Lists.{State, reply, next, after, replies, Alike};

use crate::lists::{Answer, Call};
use boards::board::Board;
use flat::calls::poke;

// Makes one call.
fn one<B: Board>(
    b: &mut B,
    call: Call<B::Cell>,
    lines: &[B::Cell],
    memory: &mut [B::Cell],
) -> Answer<B::Cell>
    ensures answer { result ≡ reply (B.limits b.old) lines.now call (record { matrix = B.matrix b.old; memory = memory.old }) }
    ensures effect { record { matrix = B.matrix b.new; memory = memory.new } ≡ next (B.limits b.old) lines.now call (record { matrix = B.matrix b.old; memory = memory.old }) }
    ensures limits { B.limits b.new ≡ B.limits b.old }
{
    match call {
        Call::Size => {
            let (rows, cols) = b.size();
            Answer::Sized(rows, cols)
        }
        Call::Bounds => Answer::Bounded(b.bounds()),
        Call::Get(r, c) => Answer::Cell(b.get(r, c)),
        Call::Put(r, c, x) => Answer::Said(b.put(r, c, x)),
        Call::Insert(axis, i, segment) => Answer::Said(b.insert(axis, i, segment.of(lines))),
        Call::Remove(axis, i) => Answer::Said(b.remove(axis, i, memory)),
        Call::Transpose => {
            b.transpose();
            Answer::Done
        }
        Call::Flip(axis) => {
            b.flip(axis);
            Answer::Done
        }
    }
}

// Makes the calls of a list in order, as many as there is room for answers, and writes the answers down.
// kept: a caller has each slice by itself; a struct of calls and lines would be built for this call and taken apart in it, and
// each clause would say `list.entry.lines.now` for `lines.now`.
pub fn run<B: Board>(
    b: &mut B,
    calls: &[Call<B::Cell>],
    lines: &[B::Cell],
    memory: &mut [B::Cell],
    answers: &mut [Answer<B::Cell>],
)
    ensures answer { answers.new ≡ over (replies (B.limits b.old) lines.now (take (length answers.old) calls.now) (record { matrix = B.matrix b.old; memory = memory.old })) answers.old }
    ensures effect { record { matrix = B.matrix b.new; memory = memory.new } ≡ after (B.limits b.old) lines.now (take (length answers.old) calls.now) (record { matrix = B.matrix b.old; memory = memory.old }) }
    ensures limits { B.limits b.new ≡ B.limits b.old }
{
    // kept: an index beside the calls: tried by `zip` with `iter_mut`, after which a proof knows nothing of what was written. By the
    // calls, as a loop over the answers would pass the places that no call is left for, and there may be many more of them.
    // Lists of a sheet are run by a loop like this. One function for both would be public and require of its closure that it can
    // be called, as no public function here does; and a trait of one call would need a struct of board, lines and memory for it.
    let n = calls.len().min(answers.len());
    for (k, call) in calls[..n].iter().enumerate() {
        let answer = one(b, *call, lines, memory);
        poke(answers, k, answer);
    }
}

// The same on two boards, each with memory and answers of its own. Boards with equal matrices and limits answer the list alike:
// given equal memory and equal slices for the answers, they end with all of it equal.
pub fn run_both<A: Board, B: Board<Cell = A::Cell>>(
    a: &mut A,
    b: &mut B,
    calls: &[Call<A::Cell>],
    lines: &[A::Cell],
    memory_a: &mut [A::Cell],
    memory_b: &mut [A::Cell],
    answers_a: &mut [Answer<A::Cell>],
    answers_b: &mut [Answer<A::Cell>],
)
    ensures answer_a { answers_a.new ≡ over (replies (A.Board.limits a.old) lines.now (take (length answers_a.old) calls.now) (record { matrix = A.Board.matrix a.old; memory = memory_a.old })) answers_a.old }
    ensures effect_a { record { matrix = A.Board.matrix a.new; memory = memory_a.new } ≡ after (A.Board.limits a.old) lines.now (take (length answers_a.old) calls.now) (record { matrix = A.Board.matrix a.old; memory = memory_a.old }) }
    ensures limits_a { A.Board.limits a.new ≡ A.Board.limits a.old }
    ensures answer_b { answers_b.new ≡ over (replies (B.Board.limits b.old) lines.now (take (length answers_b.old) calls.now) (record { matrix = B.Board.matrix b.old; memory = memory_b.old })) answers_b.old }
    ensures effect_b { record { matrix = B.Board.matrix b.new; memory = memory_b.new } ≡ after (B.Board.limits b.old) lines.now (take (length answers_b.old) calls.now) (record { matrix = B.Board.matrix b.old; memory = memory_b.old }) }
    ensures limits_b { B.Board.limits b.new ≡ B.Board.limits b.old }
    ensures alike { Alike (A.Board.matrix a.old) (B.Board.matrix b.old) (A.Board.limits a.old) (B.Board.limits b.old) memory_a.old memory_b.old answers_a.old answers_b.old → Alike (A.Board.matrix a.new) (B.Board.matrix b.new) (A.Board.limits a.new) (B.Board.limits b.new) memory_a.new memory_b.new answers_a.new answers_b.new }
{
    run(a, calls, lines, memory_a, answers_a);
    run(b, calls, lines, memory_b, answers_b);
}
