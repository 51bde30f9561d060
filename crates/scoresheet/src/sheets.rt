// The sheets of a list, one after another.
// kept: `text` on each call, since it speaks of an output before and after it, so that no invariant says it.
ghost use Rattle.std.specs.Prelude.{◌≡◌, ◌∷◌, IfOk, string_bytes};
ghost use Rattle.layouts.specs.Layouts.{memory_under, ground_limits};
ghost use Rattle.listing.specs.Calls.{texts};
ghost use Rattle.scoresheet.specs.Outcomes.{Answerable, AnswerableLines, Clean};
ghost use Rattle.scoresheet.specs.Plays.{PlaysPlan};
ghost use Rattle.scoresheet.specs.Sheets.{NoSheet, Told, SheetText, GroupText, LinesText, ListText, making};

use crate::answers::Played;
use crate::grounds::Run;
use crate::lines::{self, Stop};
use crate::output::Output;
use crate::script::{Plan, Supply};
use cells::kinds::{Kind, Passage, Penalty};
use layouts::over::{cells_under, ground_check, over};
use listing::answer::Answer;
use listing::call::{Call, Fresh, SheetKind};
use listing::written::Written;
use listing::wrong::Wrong;
use matrix::limits::SIDE;
use replay::call::Answer as Said;
use std::alloc::{AllocError, Global};

// What a list is answered: without an error only where each of its lines is a call, or says nothing, and the first call makes a sheet.
pub fn answers(heap: Global, text: &str) -> Result<Output, AllocError>
    ensures text { IfOk result (λ out. ListText text.now (string_bytes out.text)) }
    ensures sound { IfOk result (λ out. Clean out → Answerable text.now) }
{
    let lines = lines::split(heap, text)?;
    answer(heap, lines.as_slice())
}

// Answers all lines. A sheet answers its own, from the line that makes it up to the one that makes the next. The words of a line are
// let go once it is read.
fn answer(heap: Global, lines: &[&str]) -> Result<Output, AllocError>
    ensures text { IfOk result (λ out. LinesText (texts lines.now) (string_bytes out.text)) }
    ensures sound { IfOk result (λ out. Clean out → AnswerableLines (texts lines.now)) }
{
    let mut out = Output::new(heap);
    let mut stop = no_sheet(&mut out, lines, 0)?;
    while let Some(fresh) = stop.fresh {
        stop = answer_group(&mut out, fresh, lines, stop.lines)?;
    }
    Ok(out)
}

// Answers the line that makes a sheet, line number `from` of the list, and those after it, up to the one that makes the next.
fn answer_group(
    out: &mut Output,
    fresh: Fresh,
    lines: &[&str],
    from: usize,
) -> Result<Stop, AllocError>
    ensures text { IfOk result (λ stop. Told (λ us. GroupText (making from fresh ∷ us)) (texts lines.now) from stop out.old out.new) }
{
    let made = ground_check(fresh.layout.ground);
    out.answer::<Passage>(Answer::Done(made))?;
    match (made, fresh.kind) {
        (Err(_), _) => no_sheet(out, lines, from),
        (Ok(()), SheetKind::Passages) => answer_sheet::<Passage>(out, fresh, lines, from),
        (Ok(()), SheetKind::Penalties) => answer_sheet::<Penalty>(out, fresh, lines, from),
    }
}

// Lines that no sheet stands before: each is answered by an error.
// kept: the place of a line is its number in the list, so that the lines before are not handed on and are counted all the same; and a
// loop of its own beside that of `Plan::read_all`, as a call does not outlive the words of its line
fn no_sheet(out: &mut Output, lines: &[&str], from: usize) -> Result<Stop, AllocError>
    ensures text { IfOk result (λ stop. NoSheet (texts lines.now) from stop out.old out.new) }
{
    for at in from..lines.len() {
        let words = lines::split_line(out.heap, lines[at])?;
        if let Some(call) = Call::read(words.as_slice()).transpose() {
            let number = at + 1;
            if let Some(fresh) = lines::made(call) {
                return Ok(Stop {
                    lines: number,
                    fresh: Some(fresh),
                });
            }
            out.error(number, call.err().unwrap_or(Wrong::NoSheet))?;
        }
    }
    Ok(Stop {
        lines: lines.len(),
        fresh: None,
    })
}

// Reads the lines of a sheet that is made, runs them, and prints the answers. Where a line asks for more than its call answers, a
// first run tells the sizes, and the answers are those of a second.
fn answer_sheet<T: Written>(
    out: &mut Output,
    fresh: Fresh,
    lines: &[&str],
    from: usize,
) -> Result<Stop, AllocError>
    ensures text { IfOk result (λ stop. Told (SheetText T.Written.spells T.Written.spelling fresh) (texts lines.now) from stop out.old out.new) }
{
    let heap = out.heap;
    let mut plan: Plan<T> = Plan::new(heap, SIDE);
    let mut supply: Supply<T> = Supply::new(heap);
    let stop = plan.read_all(heap, &mut supply, fresh.kind, lines, from)?;
    let first = play(heap, fresh, &supply, &plan)?;
    if plan.is_unrolled() {
        first.print(out, &plan)?;
        return Ok(stop);
    }
    let plan = plan.unrolled(heap, first.answers.as_slice())?;
    let second = play(heap, fresh, &supply, &plan)?;
    second.print(out, &plan)?;
    Ok(stop)
}

// Runs a plan on a new sheet.
fn play<T: Written>(
    heap: Global,
    fresh: Fresh,
    supply: &Supply<T>,
    plan: &Plan<T>,
) -> Result<Played<T>, AllocError>
    ensures plays { IfOk result (λ played. PlaysPlan fresh.keeping (ground_limits (memory_under fresh.layout.ground) fresh.layout.ground) supply.now plan.now played) }
{
    let mut ground = vec![in heap; T::blank(); cells_under(fresh.layout.ground)]?;
    let run = Run {
        heap,
        keeping: fresh.keeping,
        supply,
        calls: plan.calls.as_slice(),
        played: Played {
            starts: vec![in heap; Ok(()); supply.starts.len()]?,
            answers: vec![in heap; Said::Lacking; plan.calls.len()]?,
            memory: vec![in heap; T::blank(); plan.pool]?,
        },
    };
    over::<T, Run<'_, T>>(fresh.layout, ground.as_mut_slice(), run)
}
