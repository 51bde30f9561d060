// What the program prints, one line for each call, and more for a sheet that is shown.
ghost use Rattle.std.specs.Prelude.{◌≡◌, ◌↔◌, [], ◌++◌, Err, IfOk, IsOk, string_bytes};
ghost use Rattle.scoresheet.specs.Outcomes.{Clean};
ghost use Rattle.listing.specs.Lines.{answer_text};
ghost use Rattle.scoresheet.specs.Pages.{answer_line, error_line};

use anyhow::anyhow;
use listing::answer::Answer;
use listing::written::Written;
use listing::wrong::Wrong;
use std::alloc::{AllocError, Global};
use std::fmt::Write;

// The lines so far, the last error among them, and the memory for more.
#[derive(Drop)]
pub struct Output {
    pub heap: Global,
    pub text: String,
    outcome: Result<(), Wrong>,
}

impl Output {
    pub fn new(heap: Global) -> Output
        ensures text { string_bytes result.text ≡ [] }
        ensures outcome { Clean result }
    {
        Output {
            heap,
            text: String::new(heap),
            outcome: Ok(()),
        }
    }

    // An answer that is no error.
    pub fn answer<T: Written>(&mut self, answer: Answer<'_, T>) -> Result<(), AllocError>
        ensures text { IfOk result (λ _. string_bytes self.new.text ≡ string_bytes self.old.text ++ answer_line (answer_text T.Written.spelling answer.entry)) }
        ensures outcome { self.new.outcome ≡ self.old.outcome }
    {
        writeln!(self.text, "{answer}")
    }

    // The answer to the line of that number in the list, which is an error.
    pub fn error(&mut self, number: usize, wrong: Wrong) -> Result<(), AllocError>
        ensures text { IfOk result (λ _. string_bytes self.new.text ≡ string_bytes self.old.text ++ error_line number wrong) }
        ensures outcome { self.new.outcome ≡ Err wrong }
    {
        self.outcome = Err(wrong);
        writeln!(self.text, "error {number} {wrong}")
    }

    // Ends the answers: an error among them is the program's.
    pub fn finish(self) -> anyhow::Result<()>
        ensures outcome { IsOk result ↔ Clean self }
    {
        match self.outcome {
            Ok(()) => Ok(()),
            Err(_) => Err(anyhow!(
                "a line of the list was no call, or one that its sheet does not have"
            )),
        }
    }
}
