// The journal of a sheet: which edits are owed a step back.
use crate::edit::Edit;
use arrayvec::ArrayVec;
use std::marker::Model;

pub mod calls;

// The most edits that are owed.
// kept: another limit than the longest line, of the same number
pub(crate) const OWED: usize = 256;

// It is seen as the list of the owed edits, the oldest first, at most 256 of them.
#[derive(Drop)]
pub struct Journal {
    edits: ArrayVec<Edit, OWED>,
}

impl Model for Journal {
    ghost use Rattle.std.specs.Prelude.{◌≤◌, List, length};
    ghost use Rattle.sheet.specs.declared.edit.Edit.{Edit};

    ghost Value = { List Edit };

    ghost use Rattle.sheet.specs.Book.{owed_limit};

    ghost view = { λ a. a.edits.items };

    ghost invariant = { λ a. length a.edits.items ≤ owed_limit };
}
