// Stepping back.
// kept: `Stands` in `Follows` and `Leaves`, as no `impl Model` gives the book, whose counts and earlier matrices no sheet stores.
ghost use Rattle.std.specs.Prelude.{◌≡◌};
ghost use Rattle.sheet.specs.Book.{back_said, back_book, back_memory};
ghost use Rattle.sheet.specs.Sheets.{Follows, Leaves};

use crate::edit::Edit;
use crate::sheets::OpenSheet;
use boards::board::Board;
use cells::refusal::Refusal;
use keeps::keep::Keep;
use keeps::lines::pull_line;

impl<B: Board, K: Keep<Cell = B::Cell>> OpenSheet<B, K> {
    // Undoes the newest owed edit. The line that it put in or took out lies in the first cells of the memory.
    pub fn step_back(&mut self, memory: &mut [B::Cell]) -> Result<(), Refusal>
        ensures follows { Follows B.Board K.Keep self.old self.new result (back_said memory.old) (back_book memory.old) }
        ensures leaves { Leaves B.Board K.Keep self.old memory.new (back_memory memory.old) }
    {
        let edit = self.journal.last().ok_or(Refusal::NothingOwed)?;
        match edit {
            Edit::Put(r, c) => {
                let old = self.keep.take().ok_or(Refusal::NothingOwed)?;
                let _ = self.board.put(r, c, old);
            }
            Edit::Insert(axis, i, n) => {
                if memory.len() < n {
                    return Err(Refusal::Short);
                }
                let _ = self.board.remove(axis, i, memory);
            }
            Edit::Remove(axis, i, n) => {
                if memory.len() < n {
                    return Err(Refusal::Short);
                }
                pull_line(&mut self.keep, &mut memory[..n]);
                let _ = self.board.insert(axis, i, &memory[..n]);
            }
            Edit::Transpose => self.board.transpose(),
            Edit::Flip(axis) => self.board.flip(axis),
        }
        self.journal.strike();
        Ok(())
    }
}
