// The answers to calls, as they are printed.
ghost use Rattle.std.specs.Prelude.{Some};
ghost use Rattle.listing.specs.Lines.{cells_text, answer_text};

use crate::name::Name;
use crate::written::{Spelt, Written};
use cells::refusal::Refusal;
use std::fmt;
use std::fmt::Display;

// Cells of a line, each after a space.
#[derive(Clone, Copy)]
pub struct Cells<'a, T>(pub &'a [T]);

impl<T: Written> Display for Cells<'_, T> {
    ghost output = { λ cells. Some (cells_text T.Written.spelling cells.0.now) };

    fn fmt<W: fmt::Write>(&self, f: &mut fmt::Formatter<W>) -> fmt::Result {
        for cell in self.0 {
            let cell = Spelt(*cell);
            write!(f, " {cell}")?;
        }
        Ok(())
    }
}

#[derive(Clone, Copy)]
pub enum Answer<'a, T> {
    // The call is made, or it is refused.
    Done(Result<(), Refusal>),
    // A line came out.
    Line(Cells<'a, T>),
    // A row of a sheet that is shown.
    Row(Cells<'a, T>),
    Size(usize, usize),
    Cell(Option<T>),
    // What the question of that name counts.
    Count(Name, usize),
    // How many edits a publishing settles.
    Published(usize),
    // Edits accepted, owed, stepped back and settled.
    Tally(usize, usize, usize, usize),
}

impl<T: Written> Display for Answer<'_, T> {
    ghost output = { λ answer. Some (answer_text T.Written.spelling answer) };

    fn fmt<W: fmt::Write>(&self, f: &mut fmt::Formatter<W>) -> fmt::Result {
        match *self {
            Answer::Done(Ok(())) => f.write_str("ok"),
            Answer::Done(Err(refusal)) => {
                let number = refusal.number();
                write!(f, "refused {number} {refusal}")
            }
            Answer::Line(cells) => write!(f, "ok line{cells}"),
            Answer::Row(cells) => write!(f, "row{cells}"),
            Answer::Size(rows, cols) => write!(f, "size {rows} {cols}"),
            Answer::Cell(Some(cell)) => {
                let cell = Spelt(cell);
                write!(f, "cell {cell}")
            }
            Answer::Cell(None) => f.write_str("absent"),
            Answer::Count(name, count) => write!(f, "{name} {count}"),
            Answer::Published(count) => write!(f, "ok settled {count}"),
            Answer::Tally(accepted, owed, back, settled) => {
                write!(f, "tally {accepted} {owed} {back} {settled}")
            }
        }
    }
}
