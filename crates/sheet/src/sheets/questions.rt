// What an open sheet is asked, and its end without publishing.
// kept: `Stands` is a premise, as no `impl Model` gives the book, whose counts and earlier matrices no sheet stores.
ghost use Rattle.std.specs.Prelude.{◌≡◌, length};
ghost use Rattle.matrix.specs.Matrix.{Matrix};
ghost use Rattle.sheet.specs.Book.{Book, kept};
ghost use Rattle.sheet.specs.Sheets.{Stands};

use crate::sheets::OpenSheet;
use boards::board::Board;
use keeps::keep::Keep;

impl<B: Board, K: Keep<Cell = B::Cell>> OpenSheet<B, K> {
    pub fn size(&self) -> (usize, usize)
        ensures answer { (b : Book B.Cell) → Stands B.Board K.Keep self.now b → result ≡ (b.matrix.rows, b.matrix.cols) }
    {
        self.board.size()
    }

    pub fn get(&self, r: usize, c: usize) -> Option<B::Cell>
        ensures answer { (b : Book B.Cell) → Stands B.Board K.Keep self.now b → result ≡ b.matrix.cell r c }
    {
        self.board.get(r, c)
    }

    pub fn owed(&self) -> usize
        ensures answer { (b : Book B.Cell) → Stands B.Board K.Keep self.now b → result ≡ length b.entries }
    {
        self.journal.count()
    }

    pub fn kept(&self) -> usize
        ensures answer { (b : Book B.Cell) → Stands B.Board K.Keep self.now b → result ≡ length (kept b.entries) }
    {
        self.keep.count()
    }

    // Ends the sheet: its board and its keep.
    // kept: as of a published sheet; open and published sheets are two types, so that neither has the other's calls
    pub fn into_parts(self) -> (B, K)
        ensures board { result.0 ≡ self.board }
        ensures keep { result.1 ≡ self.keep }
    {
        (self.board, self.keep)
    }
}
