// One call of a list on a sheet.
// kept: lines and memory come as `replay` is handed them, and are lent to one call of the sheet each.
// kept: `Stands`, `Closed` and `Holds` are premises, since a world has a book, whose counts and earlier matrices no sheet stores.
ghost use Rattle.std.specs.Prelude.{◌≡◌, List, Some, None};
ghost use Rattle.sheet.specs.Sheets.{Stands, Closed};
ghost use Rattle.replay.specs.World.{World, Holds, Steps};

use crate::call::{Answer, Call, State};
use boards::board::Board;
use keeps::keep::Keep;
use sheet::sheets::{OpenSheet, PublishedSheet};

fn step_published<B: Board, K: Keep<Cell = B::Cell>>(
    sheet: PublishedSheet<B, K>,
    call: Call<B::Cell>,
) -> (State<B, K>, Answer<B::Cell>)
    ensures steps { (w : World B.Cell) (pool : List B.Cell) → w.stage ≡ Some sheet.settled → Closed B.Board K.Keep sheet w.book sheet.settled → Steps B.Board K.Keep result.0 result.1 w.memory pool call w }
{
    let answer = match call {
        Call::Reopen => return (State::Open(sheet.reopen()), Answer::Moved),
        Call::Get(r, c) => Answer::Cell(sheet.get(r, c)),
        Call::Size => {
            let (rows, cols) = sheet.size();
            Answer::Sized(rows, cols)
        }
        Call::Settled => Answer::Count(sheet.settled()),
        _ => Answer::Lacking,
    };
    (State::Published(sheet), answer)
}

fn step_open<B: Board, K: Keep<Cell = B::Cell>>(
    mut sheet: OpenSheet<B, K>,
    call: Call<B::Cell>,
    lines: &[B::Cell],
    memory: &mut [B::Cell],
) -> (State<B, K>, Answer<B::Cell>)
    ensures steps { (w : World B.Cell) → w.stage ≡ None → Stands B.Board K.Keep sheet w.book → w.memory ≡ memory.old → Steps B.Board K.Keep result.0 result.1 memory.new lines.now call w }
{
    let answer = match call {
        Call::Put(r, c, x) => Answer::Said(sheet.put(r, c, x)),
        Call::Insert(axis, i, segment) => Answer::Said(sheet.insert(axis, i, segment.of(lines))),
        Call::Remove(axis, i, segment) => {
            let range = segment.within(memory.len());
            Answer::Said(sheet.remove(axis, i, &mut memory[range]))
        }
        Call::Transpose => Answer::Said(sheet.transpose()),
        Call::Flip(axis) => Answer::Said(sheet.flip(axis)),
        Call::StepBack(segment) => {
            let range = segment.within(memory.len());
            Answer::Said(sheet.step_back(&mut memory[range]))
        }
        Call::Publish => {
            let published = sheet.publish();
            let n = published.settled();
            return (State::Published(published), Answer::Count(n));
        }
        Call::Get(r, c) => Answer::Cell(sheet.get(r, c)),
        Call::Size => {
            let (rows, cols) = sheet.size();
            Answer::Sized(rows, cols)
        }
        Call::Owed => Answer::Count(sheet.owed()),
        Call::Kept => Answer::Count(sheet.kept()),
        Call::Reopen | Call::Settled => Answer::Lacking,
    };
    (State::Open(sheet), answer)
}

// One call on a sheet, open or published.
pub(crate) fn step<B: Board, K: Keep<Cell = B::Cell>>(
    state: State<B, K>,
    call: Call<B::Cell>,
    lines: &[B::Cell],
    memory: &mut [B::Cell],
) -> (State<B, K>, Answer<B::Cell>)
    ensures steps { (w : World B.Cell) → Holds B.Board K.Keep state w → w.memory ≡ memory.old → Steps B.Board K.Keep result.0 result.1 memory.new lines.now call w }
{
    match state {
        State::Open(sheet) => step_open(sheet, call, lines, memory),
        State::Published(sheet) => step_published(sheet, call),
    }
}
