// The names of the calls.
ghost use Rattle.std.specs.Prelude.{Some};
ghost use Rattle.matrix.specs.Words.{Named};
ghost use Rattle.listing.specs.Names.{name_word};

use matrix::axis::Axis;
use std::fmt;
use std::fmt::Display;
use std::str::FromStr;

#[derive(Clone, Copy, PartialEq, Eq)]
pub enum Name {
    New,
    Start,
    Put,
    Insert(Axis),
    Remove(Axis),
    Transpose,
    Flip(Axis),
    StepBack,
    Publish,
    Reopen,
    Size,
    Get,
    Owed,
    Kept,
    Settled,
    Show,
    Tally,
}

// A word that is the name of no call.
#[derive(Clone, Copy, PartialEq, Eq)]
pub struct NoName;

impl FromStr for Name {
    type Err = NoName;

    ghost from_str_gives = { Named name_word };

    fn from_str(word: &str) -> Result<Name, NoName> {
        match word {
            "new" => Ok(Name::New),
            "start" => Ok(Name::Start),
            "put" => Ok(Name::Put),
            "insert-row" => Ok(Name::Insert(Axis::Row)),
            "insert-col" => Ok(Name::Insert(Axis::Col)),
            "remove-row" => Ok(Name::Remove(Axis::Row)),
            "remove-col" => Ok(Name::Remove(Axis::Col)),
            "transpose" => Ok(Name::Transpose),
            "flip-rows" => Ok(Name::Flip(Axis::Row)),
            "flip-cols" => Ok(Name::Flip(Axis::Col)),
            "step-back" => Ok(Name::StepBack),
            "publish" => Ok(Name::Publish),
            "reopen" => Ok(Name::Reopen),
            "size" => Ok(Name::Size),
            "get" => Ok(Name::Get),
            "owed" => Ok(Name::Owed),
            "kept" => Ok(Name::Kept),
            "settled" => Ok(Name::Settled),
            "show" => Ok(Name::Show),
            "tally" => Ok(Name::Tally),
            _ => Err(NoName),
        }
    }
}

impl Display for Name {
    ghost output = { λ name. Some (name_word name) };

    fn fmt<W: fmt::Write>(&self, f: &mut fmt::Formatter<W>) -> fmt::Result {
        f.write_str(match *self {
            Name::New => "new",
            Name::Start => "start",
            Name::Put => "put",
            Name::Insert(Axis::Row) => "insert-row",
            Name::Insert(Axis::Col) => "insert-col",
            Name::Remove(Axis::Row) => "remove-row",
            Name::Remove(Axis::Col) => "remove-col",
            Name::Transpose => "transpose",
            Name::Flip(Axis::Row) => "flip-rows",
            Name::Flip(Axis::Col) => "flip-cols",
            Name::StepBack => "step-back",
            Name::Publish => "publish",
            Name::Reopen => "reopen",
            Name::Size => "size",
            Name::Get => "get",
            Name::Owed => "owed",
            Name::Kept => "kept",
            Name::Settled => "settled",
            Name::Show => "show",
            Name::Tally => "tally",
        })
    }
}
