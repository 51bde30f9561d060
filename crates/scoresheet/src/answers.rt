// The answers of a sheet as they are printed.
// kept: `text` and `outcome` on each call, since they speak of an output before and after it, so that no invariant says them.
// Calls and what they were answered lie in two slices, as the library takes the one and gives the other.
ghost use Rattle.std.specs.Prelude.{◌≡◌, ◌++◌, IfOk, IsOk, string_bytes};
ghost use Rattle.std.specs.List.{slice_get, filter_map};
ghost use Rattle.scoresheet.specs.Outcomes.{Clean};
ghost use Rattle.scoresheet.specs.Plans.{AllAsked};
ghost use Rattle.scoresheet.specs.Tells.{speech, first_speech, row_speech, counts, as_text, between_text, told_text, cell_told, row_told};
ghost use Rattle.scoresheet.specs.Pages.{printed, item_lines, with_all, rows_lines, page};

use crate::output::Output;
use crate::script::{Ask, Item, Plan, line_length};
use cells::refusal::Refusal;
use flat::segment::Segment;
use listing::answer::{Answer, Cells};
use listing::name::Name;
use listing::written::Written;
use listing::wrong::Wrong;
use replay::call::{Answer as Said, Call};
use replay::tally::Tally;
use std::alloc::{AllocError, Global};

// What a run of a plan has answered: the rows under the sheet, its calls, and the memory as it was left.
// kept: the answers to the rows apart from the rows, since rows are read once, and a sheet that is run twice answers twice
#[derive(Drop)]
pub struct Played<T: Drop> {
    pub starts: Vec<Result<(), Refusal>>,
    pub answers: Vec<Said<T>>,
    pub memory: Vec<T>,
}

impl<T: Written> Played<T> {
    // The answers of the whole sheet, with its counts on the way.
    pub fn print(&self, out: &mut Output, plan: &Plan<T>) -> Result<(), AllocError>
        ensures text { IfOk result (λ _. string_bytes out.new.text ≡ string_bytes out.old.text ++ page T.Written.spelling self.now plan.now) }
        ensures outcome { IfOk result (λ _. Clean out.new → Clean out.old × AllAsked plan.now.items.items) }
    {
        let mut tally = Tally::new();
        for item in plan.items.iter() {
            let calls = item.part.of(plan.calls.as_slice());
            let said = item.part.of(self.answers.as_slice());
            self.print_item(out, tally, *item, calls, said)?;
            tally = tallied(tally, calls, said);
        }
        Ok(())
    }

    // The answer of a line, and the rows of a sheet that is shown.
    fn print_item(
        &self,
        out: &mut Output,
        tally: Tally,
        item: Item,
        calls: &[Call<T>],
        said: &[Said<T>],
    ) -> Result<(), AllocError>
        ensures text { IfOk result (λ _. string_bytes out.new.text ≡ string_bytes out.old.text ++ item_lines T.Written.spelling self.now tally item calls.now said.now) }
        ensures outcome { IfOk result (λ _. Clean out.new → Clean out.old × IsOk item.ask) }
    {
        tell(out, item.number, self.answer(tally, item.ask, calls, said))?;
        match item.ask {
            Ok(Ask::Show) => rows(out, said),
            _ => Ok(()),
        }
    }

    // The answer of a line, by what it asks; these are its calls and what they said. Of a sheet that is shown, its first line.
    fn answer(
        &self,
        tally: Tally,
        ask: Result<Ask, Wrong>,
        calls: &[Call<T>],
        said: &[Said<T>],
    ) -> Result<Answer<'_, T>, Wrong>
        ensures text { as_text T.Written.spelling result ≡ told_text T.Written.spelling self.now tally ask calls.now said.now }
        ensures asked { IsOk result → IsOk ask }
    {
        // kept: each arm returns by itself: the arms borrow different things, and such arms are not covered where they join
        match ask? {
            Ask::Start(number) => return self.under(number),
            Ask::One | Ask::Show => return first(calls, said),
            Ask::Line => return self.between(calls, said),
            Ask::Tally => return Ok(counted(tally, said)),
        }
    }

    // The answer of the row of that number under the sheet.
    fn under(&self, number: usize) -> Result<Answer<'_, T>, Wrong>
        ensures answer { result ≡ row_speech (slice_get self.now.starts.items number) }
    {
        let said = self.starts.get(number).ok_or(Wrong::Late)?;
        Ok(Answer::Done(*said))
    }

    // The answer of a removal or a step back, between two sizes.
    fn between(&self, calls: &[Call<T>], said: &[Said<T>]) -> Result<Answer<'_, T>, Wrong>
        ensures text { as_text T.Written.spelling result ≡ between_text T.Written.spelling self.now.memory.items calls.now said.now }
    {
        let [_, call, _] = calls else {
            return Err(Wrong::Published);
        };
        let [_, one, _] = said else {
            return Err(Wrong::Published);
        };
        let Some(len) = line_length(said) else {
            return spoken(*call, *one);
        };
        let (Call::Remove(_, _, Segment { start, .. }) | Call::StepBack(Segment { start, .. })) =
            *call
        else {
            return Err(Wrong::Published);
        };
        let line = Segment { start, len }.of(self.memory.as_slice());
        Ok(Answer::Line(Cells(line)))
    }
}

// The answer of the line of that number, or what is wrong with the line.
fn tell<T: Written>(
    out: &mut Output,
    number: usize,
    answer: Result<Answer<'_, T>, Wrong>,
) -> Result<(), AllocError>
    ensures text { IfOk result (λ _. string_bytes out.new.text ≡ string_bytes out.old.text ++ printed number (as_text T.Written.spelling answer.entry)) }
    ensures outcome { IfOk result (λ _. Clean out.new → Clean out.old × IsOk answer.entry) }
{
    match answer {
        Ok(answer) => out.answer(answer),
        Err(wrong) => out.error(number, wrong),
    }
}

// The counts with each of these calls and what it said.
fn tallied<T: Written>(mut tally: Tally, calls: &[Call<T>], said: &[Said<T>]) -> Tally
    ensures answer { result ≡ with_all tally calls.now said.now }
{
    for (call, said) in calls.iter().zip(said.iter()) {
        tally = tally.with(*call, *said);
    }
    tally
}

// What the first call of a line says.
fn first<'a, T: Written>(calls: &[Call<T>], said: &[Said<T>]) -> Result<Answer<'a, T>, Wrong>
    ensures answer { result ≡ first_speech calls.now said.now }
{
    match (calls.first(), said.first()) {
        (Some(call), Some(said)) => spoken(*call, *said),
        _ => Err(Wrong::Published),
    }
}

// The counts so far, with the count owed. Where the sheet is published nothing is owed.
fn counted<'a, T: Written>(tally: Tally, said: &[Said<T>]) -> Answer<'a, T>
    ensures answer { result ≡ counts tally said.now }
{
    let owed = match said {
        [Said::Count(owed)] => *owed,
        _ => 0,
    };
    Answer::Tally(tally.accepted, owed, tally.back, tally.settled)
}

// What a call says, or why the sheet lacks it.
fn spoken<'a, T: Written>(call: Call<T>, said: Said<T>) -> Result<Answer<'a, T>, Wrong>
    ensures answer { result ≡ speech call said }
{
    match (call, said) {
        (_, Said::Said(done)) => Ok(Answer::Done(done)),
        (_, Said::Moved) => Ok(Answer::Done(Ok(()))),
        (_, Said::Sized(rows, cols)) => Ok(Answer::Size(rows, cols)),
        (_, Said::Cell(cell)) => Ok(Answer::Cell(cell)),
        (Call::Publish, Said::Count(count)) => Ok(Answer::Published(count)),
        (Call::Kept, Said::Count(count)) => Ok(Answer::Count(Name::Kept, count)),
        (Call::Settled, Said::Count(count)) => Ok(Answer::Count(Name::Settled, count)),
        (_, Said::Count(count)) => Ok(Answer::Count(Name::Owed, count)),
        (Call::Reopen | Call::Settled, Said::Lacking) => Err(Wrong::Open),
        (_, Said::Lacking) => Err(Wrong::Published),
    }
}

// Every row of a sheet, of which the size was said and then the cells.
fn rows<T: Written>(out: &mut Output, said: &[Said<T>]) -> Result<(), AllocError>
    ensures text { IfOk result (λ _. string_bytes out.new.text ≡ string_bytes out.old.text ++ rows_lines T.Written.spelling said.now) }
    ensures outcome { out.new.outcome ≡ out.old.outcome }
{
    let [Said::Sized(rows, _), ..] = said else {
        return Ok(());
    };
    for r in 0..*rows {
        let line = row(out.heap, said, r)?;
        out.answer(Answer::Row(Cells(line.as_slice())))?;
    }
    Ok(())
}

// The cells of row r.
fn row<T: Written>(heap: Global, said: &[Said<T>], r: usize) -> Result<Vec<T>, AllocError>
    ensures cells { IfOk result (λ line. line.items ≡ row_told r said.now) }
{
    let [Said::Sized(_, cols), cells @ ..] = said else {
        return Ok(Vec::new(heap));
    };
    let row = Segment {
        start: r.saturating_mul(*cols),
        len: *cols,
    };
    cells_of(heap, row.of(cells))
}

// The cells that were asked for, those that are there.
fn cells_of<T: Written>(heap: Global, said: &[Said<T>]) -> Result<Vec<T>, AllocError>
    ensures cells { IfOk result (λ line. line.items ≡ filter_map cell_told said.now) }
{
    said.iter()
        .filter_map(|said| match said {
            Said::Cell(cell) => *cell,
            _ => None,
        })
        .collect(heap)
}
