// Why a line is answered by an error.
ghost use Rattle.std.specs.Prelude.{◌≡◌, Some};
ghost use Rattle.listing.specs.declared.wrong.Failure.{Failure};
ghost use Rattle.listing.specs.Texts.{wrong_text, IsNoMemory};

use crate::call::SheetKind;
use crate::name::Name;
use matrix::axis::Axis;
use std::alloc::{AllocError, AllocFailed};
use std::fmt;
use std::fmt::Display;

#[derive(Clone, Copy, PartialEq, Eq)]
pub enum Wrong {
    // It begins with the name of no call.
    NoName,
    // The words after its name are not those of the call.
    Usage(Name),
    // No sheet stands before it.
    NoSheet,
    // A row under the sheet, after its first call.
    Late,
    // Cell number `.1` of the line, from 1, is none of the sheet's kind.
    NoCell(SheetKind, usize),
    // A published sheet does not have the call.
    Published,
    // An open sheet does not have the call.
    Open,
}

// Printed, it is what a person is told.
impl Display for Wrong {
    ghost output = { λ wrong. Some (wrong_text wrong) };

    fn fmt<W: fmt::Write>(&self, f: &mut fmt::Formatter<W>) -> fmt::Result {
        match *self {
            Wrong::NoName => f.write_str("expected the name of a call"),
            Wrong::Usage(name) => f.write_str(match name {
                Name::New => "expected new passages|penalties BOARD KEEP",
                Name::Start => "expected start CELL ..",
                Name::Put => "expected put R C CELL",
                Name::Insert(Axis::Row) => "expected insert-row I CELL ..",
                Name::Insert(Axis::Col) => "expected insert-col I CELL ..",
                Name::Remove(Axis::Row) => "expected remove-row I [ROOM]",
                Name::Remove(Axis::Col) => "expected remove-col I [ROOM]",
                Name::StepBack => "expected step-back [ROOM]",
                Name::Get => "expected get R C",
                _ => "expected nothing after this call's name",
            }),
            Wrong::NoSheet => f.write_str("no sheet: begin with new"),
            Wrong::Late => f.write_str("start: the sheet's first call was made"),
            Wrong::NoCell(SheetKind::Passages, at) => write!(
                f,
                "cell {at}: expected -, thousandths up to 4294967295, DNS, DNF, DSQ or OFF"
            ),
            Wrong::NoCell(SheetKind::Penalties, at) => write!(
                f,
                "cell {at}: expected thousandths from -2147483648 to 2147483647"
            ),
            Wrong::Published => f.write_str("the sheet is published: reopen it before this call"),
            Wrong::Open => f.write_str("the sheet is open: publish it before this call"),
        }
    }
}

// Why a line is not answered: it is wrong, or there is no memory for what it asks.
#[derive(Drop)]
pub enum Failure {
    Wrong(Wrong),
    NoMemory(AllocError),
}

impl From<Wrong> for Failure {
    ghost from_gives = { λ wrong failure. failure ≡ Failure.Wrong wrong };

    fn from(wrong: Wrong) -> Failure {
        Failure::Wrong(wrong)
    }
}

impl From<AllocError> for Failure {
    ghost from_gives = { λ error failure. failure ≡ Failure.NoMemory error };

    fn from(error: AllocError) -> Failure {
        Failure::NoMemory(error)
    }
}

impl<T: Drop> From<AllocFailed<T>> for Failure {
    ghost from_gives = { λ failed failure. IsNoMemory failure };

    fn from(failed: AllocFailed<T>) -> Failure {
        Failure::NoMemory(AllocError::from(failed))
    }
}
