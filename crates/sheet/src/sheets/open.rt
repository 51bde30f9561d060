// The edits of an open sheet.
// kept: `Stands` in `Follows` and `Leaves`, as no `impl Model` gives the book, whose counts and earlier matrices no sheet stores.
ghost use Rattle.std.specs.Prelude.{◌≡◌};
ghost use Rattle.sheet.specs.Book.{Book, fresh, put_said, put_book, insert_said, insert_book, remove_said, remove_book, remove_memory, plain_said, transpose_book, flip_book};
ghost use Rattle.sheet.specs.Sheets.{Stands, Follows, Leaves};

use crate::axis::lines;
use crate::edit::Edit;
use crate::journal::Journal;
use crate::sheets::OpenSheet;
use boards::board::Board;
use cells::refusal::Refusal;
use keeps::keep::{Keep, emptied};
use keeps::lines::push_line;
use matrix::axis::Axis;
use matrix::checks::{insert_check, remove_check};

impl<B: Board, K: Keep<Cell = B::Cell>> OpenSheet<B, K> {
    // A new sheet empties its keep and owes nothing.
    pub fn new(board: B, keep: K) -> OpenSheet<B, K>
        ensures stands { Stands B.Board K.Keep result (fresh (B.Board.matrix board) (B.Board.limits board) (K.Keep.store keep).most) }
    {
        OpenSheet {
            board,
            keep: emptied(keep),
            journal: Journal::new(),
        }
    }

    pub fn put(&mut self, r: usize, c: usize, x: B::Cell) -> Result<(), Refusal>
        ensures follows { Follows B.Board K.Keep self.old self.new result (put_said r c) (put_book r c x) }
    {
        let old = self.board.get(r, c).ok_or(Refusal::Place)?;
        self.journal.room()?;
        self.keep.push(old)?;
        let _ = self.board.put(r, c, x);
        self.journal.note(Edit::Put(r, c));
        Ok(())
    }

    // The line becomes line i along the axis.
    pub fn insert(&mut self, axis: Axis, i: usize, line: &[B::Cell]) -> Result<(), Refusal>
        ensures follows { Follows B.Board K.Keep self.old self.new result (insert_said axis i line.now) (insert_book axis i line.now) }
    {
        let (count, across) = lines(&self.board, axis);
        insert_check(self.board.bounds(), i, line.len(), count, across)?;
        self.journal.room()?;
        let _ = self.board.insert(axis, i, line);
        self.journal.note(Edit::Insert(axis, i, line.len()));
        Ok(())
    }

    // Line i along the axis goes, its cells into the first cells of the memory and onto the keep.
    pub fn remove(&mut self, axis: Axis, i: usize, memory: &mut [B::Cell]) -> Result<(), Refusal>
        ensures follows { Follows B.Board K.Keep self.old self.new result (remove_said axis i memory.old) (remove_book axis i memory.old) }
        ensures leaves { Leaves B.Board K.Keep self.old memory.new (remove_memory axis i memory.old) }
    {
        let (count, across) = lines(&self.board, axis);
        remove_check(i, memory.len(), count, across)?;
        self.journal.room()?;
        if self.keep.limit().saturating_sub(self.keep.count()) < across {
            return Err(Refusal::Keep);
        }
        let _ = self.board.remove(axis, i, memory);
        push_line(&mut self.keep, &memory[..across]);
        self.journal.note(Edit::Remove(axis, i, across));
        Ok(())
    }

    pub fn transpose(&mut self) -> Result<(), Refusal>
        ensures follows { Follows B.Board K.Keep self.old self.new result plain_said transpose_book }
    {
        self.journal.room()?;
        self.board.transpose();
        self.journal.note(Edit::Transpose);
        Ok(())
    }

    // The last line along the axis comes first.
    pub fn flip(&mut self, axis: Axis) -> Result<(), Refusal>
        ensures follows { Follows B.Board K.Keep self.old self.new result plain_said (flip_book axis) }
    {
        self.journal.room()?;
        self.board.flip(axis);
        self.journal.note(Edit::Flip(axis));
        Ok(())
    }
}
