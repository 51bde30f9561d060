// Rules that answer a cell from one cell, and two of them.
ghost use Rattle.std.specs.Prelude.{◌≡◌};
ghost use Rattle.mapping.specs.Cells.{hundredths, negated};

use cells::kinds::{Passage, Penalty};

// A rule that answers a cell from one cell. Its answer depends on that cell alone: `rule` is what it makes of each.
pub trait CellRule {
    type From: Copy;

    type To: Copy;

    ghost rule: { Self.From → Self.To };

    fn answer(&self, x: Self::From) -> Self::To
        ensures answer { result ≡ rule x };
}

// A time in hundredths of a second: its thousandths divided by ten, the rest dropped. Blanks and marks stay.
#[derive(Clone, Copy, Debug, PartialEq, Eq)]
pub struct Hundredths;

// A penalty with the other sign. The lowest has none, and becomes the highest.
#[derive(Clone, Copy, Debug, PartialEq, Eq)]
pub struct Negated;

impl CellRule for Hundredths {
    type From = Passage;

    type To = Passage;

    ghost rule = { hundredths };

    fn answer(&self, x: Passage) -> Passage {
        match x {
            Passage::Time(thousandths) => Passage::Time(thousandths / 10),
            other => other,
        }
    }
}

impl CellRule for Negated {
    type From = Penalty;

    type To = Penalty;

    ghost rule = { negated };

    fn answer(&self, x: Penalty) -> Penalty {
        Penalty(x.0.checked_neg().unwrap_or(i32::MAX))
    }
}
