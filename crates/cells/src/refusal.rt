// The eleven ways in which a call says no.
ghost use Rattle.std.specs.Prelude.{◌≡◌, Some};
ghost use Rattle.cells.specs.Refusals.{number, numbered, spelt};

use std::fmt;
use std::fmt::Display;

// A call checks the ones that its rule names, in this order, and answers the first that holds.
#[derive(Clone, Copy, Debug, PartialEq, Eq)]
pub enum Refusal {
    Memory = 1,
    Ragged = 2,
    NothingOwed = 3,
    Empty = 4,
    Length = 5,
    Place = 6,
    Side = 7,
    Full = 8,
    Short = 9,
    Journal = 10,
    Keep = 11,
}

impl Refusal {
    // kept: rules and printed answers give the number, which is that of the variant.
    pub fn number(self) -> u32
        ensures answer { result ≡ number self }
        ensures own { numbered result ≡ self }
    {
        self as u32
    }

    // kept: no heap: who has no formatter gets the name as a text; printing goes by it.
    pub fn name(self) -> &'static str
        ensures answer { result.now ≡ spelt self }
    {
        match self {
            Refusal::Memory => "MEMORY",
            Refusal::Ragged => "RAGGED",
            Refusal::NothingOwed => "NOTHING OWED",
            Refusal::Empty => "EMPTY",
            Refusal::Length => "LENGTH",
            Refusal::Place => "PLACE",
            Refusal::Side => "SIDE",
            Refusal::Full => "FULL",
            Refusal::Short => "SHORT",
            Refusal::Journal => "JOURNAL",
            Refusal::Keep => "KEEP",
        }
    }
}

// Printed, a refusal is its name.
impl Display for Refusal {
    ghost output = { λ r. Some (spelt r) };

    fn fmt<W: fmt::Write>(&self, f: &mut fmt::Formatter<W>) -> fmt::Result {
        f.write_str(self.name())
    }
}
