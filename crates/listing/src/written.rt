// How a cell of each kind is spelt in a list.
ghost use Rattle.std.specs.Prelude.{◌≡◌, ℕ, List, Some};
ghost use Rattle.std.specs.Fmt.{WritesOnOk};
ghost use Rattle.listing.specs.Spellings.{mark_word, passage_word, penalty_word, Read, Number, Marks, Passes, Adds};

use crate::digits::number;
use cells::kinds::{Kind, Mark, Passage, Penalty};
use std::fmt;
use std::fmt::Display;

// A kind of cell that has a spelling.
pub trait Written: Kind + Clone {
    // The word that spells a cell, and the words that a cell is read from.
    ghost spelling: { Self → List ℕ };

    ghost spells: { List ℕ → Self → Type 0 };

    // The cell that a word spells.
    // kept: a `FromStr` of a cell could stand only in `cells`, which knows no list; one of `Spelt<T>` would call this, and each
    // caller would take the `Spelt` off again
    fn read(word: &str) -> Option<Self>
        ensures cell { Read spells word.now result };

    // Writes the word that spells this cell.
    // kept: a `Display` of a cell could stand only in `cells`, which knows no list; that of `Spelt<T>` calls this, so that
    // `T: Written` is all that is asked where cells are printed
    fn show<W: fmt::Write>(&self, f: &mut fmt::Formatter<W>) -> fmt::Result
        ensures text { WritesOnOk W.write_str_gives f.old result (spelling self.now) f.new };
}

// A cell as a list spells it.
#[derive(Clone, Copy)]
pub struct Spelt<T>(pub T);

impl<T: Written> Display for Spelt<T> {
    ghost output = { λ x. Some (T.Written.spelling x.0) };

    fn fmt<W: fmt::Write>(&self, f: &mut fmt::Formatter<W>) -> fmt::Result {
        self.0.show(f)
    }
}

impl Written for Passage {
    ghost spelling = { passage_word };

    ghost spells = { Passes };

    fn read(word: &str) -> Option<Passage> {
        Some(match word {
            "-" => Passage::Blank,
            "DNS" => Passage::Mark(Mark::DidNotStart),
            "DNF" => Passage::Mark(Mark::DidNotFinish),
            "DSQ" => Passage::Mark(Mark::Disqualified),
            "OFF" => Passage::Mark(Mark::OffCourse),
            _ => Passage::Time(u32::try_from(number(word)?).ok()?),
        })
    }

    fn show<W: fmt::Write>(&self, f: &mut fmt::Formatter<W>) -> fmt::Result {
        match *self {
            Passage::Blank => f.write_str("-"),
            Passage::Time(time) => write!(f, "{time}"),
            Passage::Mark(Mark::DidNotStart) => f.write_str("DNS"),
            Passage::Mark(Mark::DidNotFinish) => f.write_str("DNF"),
            Passage::Mark(Mark::Disqualified) => f.write_str("DSQ"),
            Passage::Mark(Mark::OffCourse) => f.write_str("OFF"),
        }
    }
}

impl Written for Penalty {
    ghost spelling = { penalty_word };

    ghost spells = { Adds };

    fn read(word: &str) -> Option<Penalty> {
        Some(Penalty(word.parse::<i32>().ok()?))
    }

    fn show<W: fmt::Write>(&self, f: &mut fmt::Formatter<W>) -> fmt::Result {
        let thousandths = self.0;
        write!(f, "{thousandths}")
    }
}
