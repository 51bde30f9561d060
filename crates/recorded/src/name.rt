// The words of the recorded list that name calls and answers.
use matrix::axis::Axis;
use std::str::FromStr;

#[derive(Clone, Copy)]
pub enum Name {
    New,
    Init,
    FromVec,
    Insert(Axis),
    Push(Axis),
    Remove(Axis),
    Pop(Axis),
    Delete(Axis),
    Expand(Axis),
    Prepend(Axis),
    Flip(Axis),
    Transpose,
    RotateLeft,
    RotateRight,
    RotateHalf,
    Put,
    Swap,
    Fill,
    Clear,
    Get,
    Same,
    IsEmpty,
    Size,
    Iter(Axis),
    IterLines(Axis),
    IndexedIter,
    MapRef,
}

// The word of what the original answered; the cells of a line or of lines, a cell, places or the two sides of a size stand beside
// it.
// They are words alone, and no answers with their values in them, since the numbers of an answer can stand before its word.
#[derive(Clone, Copy)]
pub enum Said {
    Done,
    Panic,
    Nothing,
    Absent,
    True,
    False,
    Line,
    Cell,
    Size,
    Lines,
    Places,
}

// A word that names none.
#[derive(Clone, Copy)]
pub struct NoName;

impl FromStr for Name {
    type Err = NoName;

    fn from_str(word: &str) -> Result<Name, NoName> {
        match word {
            "new" => Ok(Name::New),
            "init" => Ok(Name::Init),
            "from-vec" => Ok(Name::FromVec),
            "insert-row" => Ok(Name::Insert(Axis::Row)),
            "insert-col" => Ok(Name::Insert(Axis::Col)),
            "push-row" => Ok(Name::Push(Axis::Row)),
            "push-col" => Ok(Name::Push(Axis::Col)),
            "remove-row" => Ok(Name::Remove(Axis::Row)),
            "remove-col" => Ok(Name::Remove(Axis::Col)),
            "pop-row" => Ok(Name::Pop(Axis::Row)),
            "pop-col" => Ok(Name::Pop(Axis::Col)),
            "delete-row" => Ok(Name::Delete(Axis::Row)),
            "delete-col" => Ok(Name::Delete(Axis::Col)),
            "expand-rows" => Ok(Name::Expand(Axis::Row)),
            "expand-cols" => Ok(Name::Expand(Axis::Col)),
            "prepend-rows" => Ok(Name::Prepend(Axis::Row)),
            "prepend-cols" => Ok(Name::Prepend(Axis::Col)),
            "flip-rows" => Ok(Name::Flip(Axis::Row)),
            "flip-cols" => Ok(Name::Flip(Axis::Col)),
            "transpose" => Ok(Name::Transpose),
            "rotate-left" => Ok(Name::RotateLeft),
            "rotate-right" => Ok(Name::RotateRight),
            "rotate-half" => Ok(Name::RotateHalf),
            "put" => Ok(Name::Put),
            "swap" => Ok(Name::Swap),
            "fill" => Ok(Name::Fill),
            "clear" => Ok(Name::Clear),
            "get" => Ok(Name::Get),
            "same" => Ok(Name::Same),
            "is-empty" => Ok(Name::IsEmpty),
            "size" => Ok(Name::Size),
            "iter-row" => Ok(Name::Iter(Axis::Row)),
            "iter-col" => Ok(Name::Iter(Axis::Col)),
            "iter-rows" => Ok(Name::IterLines(Axis::Row)),
            "iter-cols" => Ok(Name::IterLines(Axis::Col)),
            "indexed-iter" => Ok(Name::IndexedIter),
            "map-ref" => Ok(Name::MapRef),
            _ => Err(NoName),
        }
    }
}

impl FromStr for Said {
    type Err = NoName;

    fn from_str(word: &str) -> Result<Said, NoName> {
        match word {
            "ok" => Ok(Said::Done),
            "panic" => Ok(Said::Panic),
            "none" => Ok(Said::Nothing),
            "absent" => Ok(Said::Absent),
            "true" => Ok(Said::True),
            "false" => Ok(Said::False),
            "line" => Ok(Said::Line),
            "cell" => Ok(Said::Cell),
            "size" => Ok(Said::Size),
            "lines" => Ok(Said::Lines),
            "places" => Ok(Said::Places),
            _ => Err(NoName),
        }
    }
}
