// What a journal notes and strikes.
ghost use Rattle.std.specs.Prelude.{◌≡◌, ℕ, ◌<◌, [], ◌∷◌, ◌++◌, length, nat_le};
ghost use Rattle.cells.specs.Refusals.{refused, accepted};
ghost use Rattle.keeps.specs.Kept.{newest, older};
ghost use Rattle.sheet.specs.Book.{owed_limit};

use crate::edit::Edit;
use crate::journal::Journal;
use arrayvec::ArrayVec;
use cells::refusal::Refusal;

impl Journal {
    pub(crate) fn new() -> Journal
        ensures effect { result ≡ [] }
    {
        Journal {
            edits: ArrayVec::new(),
        }
    }

    pub(crate) fn count(&self) -> usize
        ensures answer { result ≡ length self.now }
    {
        self.edits.len()
    }

    // Whether one more edit may be owed.
    pub(crate) fn room(&self) -> Result<(), Refusal>
        ensures answer { result ≡ refused 10 (nat_le owed_limit (length self.now)) accepted }
    {
        if self.edits.is_full() {
            return Err(Refusal::Journal);
        }
        Ok(())
    }

    pub(crate) fn note(&mut self, e: Edit)
        ensures effect { length self.old < owed_limit → self.new ≡ self.old ++ (e ∷ []) }
    {
        let _ = self.edits.try_push(e);
    }

    pub(crate) fn last(&self) -> Option<Edit>
        ensures answer { result ≡ newest self.now }
    {
        self.edits.as_slice().last().copied()
    }

    pub(crate) fn strike(&mut self)
        ensures effect { self.new ≡ older self.old }
    {
        let _ = self.edits.pop();
    }
}
