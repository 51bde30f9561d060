// Publishing, what a published sheet is asked, and reopening.
// kept: `Stands` and `Closed` are premises, as no `impl Model` gives the book, whose counts and earlier matrices no sheet stores.
ghost use Rattle.std.specs.Prelude.{◌≡◌, ℕ, length};
ghost use Rattle.matrix.specs.Matrix.{Matrix};
ghost use Rattle.sheet.specs.Book.{Book, settle};
ghost use Rattle.sheet.specs.Sheets.{Stands, Closed};

use crate::journal::Journal;
use crate::sheets::{OpenSheet, PublishedSheet};
use boards::board::Board;
use keeps::keep::{Keep, emptied};

impl<B: Board, K: Keep<Cell = B::Cell>> OpenSheet<B, K> {
    // Uses up the open sheet: all owed edits are settled, and the keep is emptied.
    pub fn publish(self) -> PublishedSheet<B, K>
        ensures closed { (b : Book B.Cell) → Stands B.Board K.Keep self b → Closed B.Board K.Keep result (settle b) (length b.entries) }
    {
        PublishedSheet {
            settled: self.journal.count(),
            board: self.board,
            keep: emptied(self.keep),
        }
    }
}

impl<B: Board, K: Keep<Cell = B::Cell>> PublishedSheet<B, K> {
    // An open sheet that owes nothing.
    pub fn reopen(self) -> OpenSheet<B, K>
        ensures stands { (b : Book B.Cell) (n : ℕ) → Closed B.Board K.Keep self b n → Stands B.Board K.Keep result b }
    {
        OpenSheet {
            board: self.board,
            keep: self.keep,
            journal: Journal::new(),
        }
    }

    pub fn size(&self) -> (usize, usize)
        ensures answer { (b : Book B.Cell) (n : ℕ) → Closed B.Board K.Keep self.now b n → result ≡ (b.matrix.rows, b.matrix.cols) }
    {
        self.board.size()
    }

    pub fn get(&self, r: usize, c: usize) -> Option<B::Cell>
        ensures answer { (b : Book B.Cell) (n : ℕ) → Closed B.Board K.Keep self.now b n → result ≡ b.matrix.cell r c }
    {
        self.board.get(r, c)
    }

    // How many edits were settled just now.
    pub fn settled(&self) -> usize
        ensures answer { (b : Book B.Cell) (n : ℕ) → Closed B.Board K.Keep self.now b n → result ≡ n }
    {
        self.settled
    }

    // Ends the sheet: its board and its keep.
    // kept: open and published sheets are two types so that neither has the other's calls; what both have is one line each
    pub fn into_parts(self) -> (B, K)
        ensures board { result.0 ≡ self.board }
        ensures keep { result.1 ≡ self.keep }
    {
        (self.board, self.keep)
    }
}
