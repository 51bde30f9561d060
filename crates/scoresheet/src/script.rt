// The lines of one sheet as calls of the library.
// kept: that a call leaves the lines read before speaks of a plan before and after it, so that no invariant says it.
ghost use Rattle.std.specs.Prelude.{◌≡◌, ◌+◌, ◌-◌, [], ◌∷◌, ◌++◌, false, not, IfOk, IfErr, IsOk, length};
ghost use Rattle.std.specs.List.{list_any};
ghost use Rattle.listing.specs.Calls.{texts};
ghost use Rattle.listing.specs.Texts.{IsNoMemory};
ghost use Rattle.scoresheet.specs.Cells.{Gained};
ghost use Rattle.matrix.specs.Rules.{side_limit};
ghost use Rattle.replay.specs.Tallies.{capped};
ghost use Rattle.scoresheet.specs.Plans.{AllAsked};
ghost use Rattle.scoresheet.specs.Asks.{Adds, Becomes, Notes, Supplies, Unasked, coming, room_lent, moved_to, line_between};
ghost use Rattle.scoresheet.specs.Sheets.{NotesUpTo};
ghost use Rattle.scoresheet.specs.Wrongs.{begun_by, TooLate, Misspelt, Mistaken, IfWrong};
ghost use Rattle.scoresheet.specs.Unrolls.{waits, cells_asked, asked_again, pool_after, unrolled};

use crate::lines::{Line, Stop, made, split_line};
use crate::spelt::read_cells;
use flat::segment::Segment;
use listing::call::{Call as Asked, SheetKind};
use listing::written::Written;
use listing::wrong::{Failure, Wrong};
use matrix::limits::SIDE;
use replay::call::{Answer as Said, Call};
use std::alloc::{AllocError, Global};

// What a line asks, and so how its answers are printed.
#[derive(Clone, Copy)]
pub enum Ask {
    // The row of that number under the sheet.
    Start(usize),
    // One call.
    One,
    // A removal or a step back. A size is asked before and after it: a line that comes or goes is as long as the sizes
    // differ in cells.
    Line,
    // The size, and then every cell.
    Show,
    // The count owed; the other counts come from the answers before.
    Tally,
}

// A line that has an answer: its number in the list, what it asks or what is wrong with it, and its part of what there is for
// each call of the sheet.
// kept: the library takes a sheet's calls, and gives their answers, in one slice each; lines with vectors of their own would be
// copied into such slices before each run, and the answers out of them after it
#[derive(Clone, Copy)]
pub struct Item {
    pub number: usize,
    pub ask: Result<Ask, Wrong>,
    pub part: Segment,
}

// The lines of a sheet, their calls, and how many cells of memory there are for the lines that come out.
#[derive(Drop)]
pub struct Plan<T: Drop> {
    pub items: Vec<Item>,
    pub calls: Vec<Call<T>>,
    pub pool: usize,
}

// The rows under a sheet, and the cells that go in by them and by the sheet's calls.
// kept: rows beside cells, since the library takes the cells of all calls in one slice, and the rows are read among them
#[derive(Drop)]
pub struct Supply<T: Drop> {
    pub starts: Vec<Segment>,
    pub cells: Vec<T>,
}

impl<T: Written> Supply<T> {
    pub fn new(heap: Global) -> Supply<T>
        ensures starts { result.starts.items ≡ [] }
        ensures cells { result.cells.items ≡ [] }
    {
        Supply {
            starts: Vec::new(heap),
            cells: Vec::new(heap),
        }
    }

    // The cells that words spell go to the end of the cells.
    fn read(&mut self, kind: SheetKind, words: &[&str]) -> Result<Segment, Failure>
        ensures segment { IfOk result (λ g. g ≡ coming self.old (length words.now)) }
        ensures starts { self.new.starts ≡ self.old.starts }
        ensures cells { IfOk result (λ _. Gained T.Written.spells (texts words.now) self.old.cells.items self.new.cells.items) }
        ensures only { IfErr result (λ e. IfWrong e (Misspelt T.Written.spells kind (texts words.now) self.old.cells.items self.new.cells.items)) }
    {
        let start = self.cells.len();
        read_cells(&mut self.cells, kind, words)?;
        Ok(Segment {
            start,
            len: words.len(),
        })
    }
}

impl<T: Written> Plan<T> {
    pub fn new(heap: Global, pool: usize) -> Plan<T>
        ensures items { result.items.items ≡ [] }
        ensures calls { result.calls.items ≡ [] }
        ensures pool { result.pool ≡ pool }
    {
        Plan {
            items: Vec::new(heap),
            calls: Vec::new(heap),
            pool,
        }
    }

    // The lines of a sheet that is made, after the first `from` of a list, up to the one that makes the next. The words of a line are
    // let go once it is read.
    // kept: the place of a line is its number in the list, so that the lines before are not handed on and are counted all the same
    pub fn read_all(
        &mut self,
        heap: Global,
        supply: &mut Supply<T>,
        kind: SheetKind,
        lines: &[&str],
        from: usize,
    ) -> Result<Stop, AllocError>
        ensures read { IfOk result (λ stop. NotesUpTo T.Written.spells kind (texts lines.now) from stop supply.old supply.new self.old self.new) }
        ensures pool { self.new.pool ≡ self.old.pool }
    {
        for at in from..lines.len() {
            let words = split_line(heap, lines[at])?;
            if let Some(call) = Asked::read(words.as_slice()).transpose() {
                let number = at + 1;
                if let Some(fresh) = made(call) {
                    return Ok(Stop {
                        lines: number,
                        fresh: Some(fresh),
                    });
                }
                self.read(supply, kind, Line { number, call })?;
            }
        }
        Ok(Stop {
            lines: lines.len(),
            fresh: None,
        })
    }

    // One more line of a sheet.
    pub fn read(
        &mut self,
        supply: &mut Supply<T>,
        kind: SheetKind,
        line: Line<'_>,
    ) -> Result<(), AllocError>
        ensures items { IfOk result (λ _. AllAsked self.new.items.items → AllAsked self.old.items.items × IsOk line.entry.call) }
        ensures pool { self.new.pool ≡ self.old.pool }
        ensures notes { IfOk result (λ _. Notes T.Written.spells kind line.entry supply.old supply.new self.old self.new) }
    {
        let first = self.calls.len();
        let asked = match line.call {
            Ok(call) => self.asked(supply, kind, call),
            Err(wrong) => Err(Failure::Wrong(wrong)),
        };
        match asked {
            Ok(ask) => self.note(line.number, Ok(ask), first),
            Err(Failure::Wrong(wrong)) => self.note(line.number, Err(wrong), first),
            Err(Failure::NoMemory(error)) => Err(error),
        }
    }

    fn asked(
        &mut self,
        supply: &mut Supply<T>,
        kind: SheetKind,
        call: Asked<'_>,
    ) -> Result<Ask, Failure>
        ensures items { self.new.items ≡ self.old.items }
        ensures pool { self.new.pool ≡ self.old.pool }
        ensures calls { IfOk result (λ ask. Becomes T.Written.spells supply.old call.entry ask self.old.calls.items self.new.calls.items) }
        ensures supply { IfOk result (λ _. Supplies T.Written.spells call.entry supply.old supply.new) }
        ensures wrong { IfErr result (λ e. Unasked e self.old.calls.items self.new.calls.items supply.old.starts.items supply.new.starts.items) }
        ensures only { IfErr result (λ e. IfWrong e (Mistaken T.Written.spells kind call.entry self.old.calls.items supply.old.cells.items supply.new.cells.items)) }
    {
        match call {
            Asked::Start(words) => {
                let row = supply.read(kind, words)?;
                self.under(supply, row)
            }
            Asked::Put(r, c, word) => {
                let cell = T::read(word).ok_or(Wrong::NoCell(kind, 1))?;
                self.one(Call::Put(r, c, cell))
            }
            Asked::Insert(axis, i, words) => {
                let line = supply.read(kind, words)?;
                self.one(Call::Insert(axis, i, line))
            }
            Asked::Remove(axis, i, room) => self.between(Call::Remove(axis, i, lent(room))),
            Asked::StepBack(room) => self.between(Call::StepBack(lent(room))),
            Asked::Transpose => self.one(Call::Transpose),
            Asked::Flip(axis) => self.one(Call::Flip(axis)),
            Asked::Publish => self.one(Call::Publish),
            Asked::Reopen => self.one(Call::Reopen),
            Asked::Size => self.one(Call::Size),
            Asked::Get(r, c) => self.one(Call::Get(r, c)),
            Asked::Owed => self.one(Call::Owed),
            Asked::Kept => self.one(Call::Kept),
            Asked::Settled => self.one(Call::Settled),
            Asked::Show => {
                self.calls.push(Call::Size)?;
                Ok(Ask::Show)
            }
            Asked::Tally => {
                self.calls.push(Call::Owed)?;
                Ok(Ask::Tally)
            }
            // it begins the next sheet
            Asked::New(_) => Err(Failure::Wrong(Wrong::NoSheet)),
        }
    }

    // The row goes under the sheet, if its first call is still to come.
    fn under(&self, supply: &mut Supply<T>, row: Segment) -> Result<Ask, Failure>
        ensures number { IfOk result (λ ask. ask ≡ Ask.Start (length supply.old.starts.items)) }
        ensures starts { IfOk result (λ _. supply.new.starts.items ≡ supply.old.starts.items ++ (row ∷ [])) }
        ensures cells { supply.new.cells ≡ supply.old.cells }
        ensures late { IfErr result (λ e. Unasked {T = T} e [] [] supply.old.starts.items supply.new.starts.items) }
        ensures first { IfOk result (λ _. begun_by self.now.calls.items ≡ false) }
        ensures only { IfErr result (λ e. IfWrong e (TooLate self.now.calls.items)) }
    {
        if self.has_begun() {
            return Err(Failure::Wrong(Wrong::Late));
        }
        let number = supply.starts.len();
        supply.starts.push(row)?;
        Ok(Ask::Start(number))
    }

    // A new sheet is open, so that neither of these calls is the first of its sheet: it lacks both.
    fn has_begun(&self) -> bool
        ensures answer { result ≡ begun_by self.now.calls.items }
    {
        self.calls
            .iter()
            .any(|call| !matches!(call, Call::Reopen | Call::Settled))
    }

    fn one(&mut self, call: Call<T>) -> Result<Ask, Failure>
        ensures items { self.new.items ≡ self.old.items }
        ensures pool { self.new.pool ≡ self.old.pool }
        ensures calls { IfOk result (λ ask. Adds Ask.One (call ∷ []) ask self.old.calls.items self.new.calls.items) }
        ensures memory { IfErr result IsNoMemory }
    {
        self.calls.push(call)?;
        Ok(Ask::One)
    }

    fn between(&mut self, call: Call<T>) -> Result<Ask, Failure>
        ensures items { self.new.items ≡ self.old.items }
        ensures pool { self.new.pool ≡ self.old.pool }
        ensures calls { IfOk result (λ ask. Adds Ask.Line (Call.Size ∷ call ∷ Call.Size ∷ []) ask self.old.calls.items self.new.calls.items) }
        ensures memory { IfErr result IsNoMemory }
    {
        self.calls.push(Call::Size)?;
        self.calls.push(call)?;
        self.calls.push(Call::Size)?;
        Ok(Ask::Line)
    }

    // Ends a line whose calls began at `first`.
    fn note(
        &mut self,
        number: usize,
        ask: Result<Ask, Wrong>,
        first: usize,
    ) -> Result<(), AllocError>
        ensures items { IfOk result (λ _. AllAsked self.new.items.items → AllAsked self.old.items.items × IsOk ask) }
        ensures noted { IfOk result (λ _. self.new.items.items ≡ self.old.items.items ++ (record { number = number; ask = ask; part = record { start = first; len = length self.old.calls.items - first } } ∷ [])) }
        ensures calls { self.new.calls ≡ self.old.calls }
        ensures pool { self.new.pool ≡ self.old.pool }
    {
        let len = self.calls.len().saturating_sub(first);
        let part = Segment { start: first, len };
        self.items.push(Item { number, ask, part })?;
        Ok(())
    }

    // Whether a run of the plan as it stands tells all that its answers print.
    pub fn is_unrolled(&self) -> bool
        ensures answer { result ≡ not (list_any waits self.now.items.items) }
    {
        !self
            .items
            .iter()
            .any(|item| matches!(item.ask, Ok(Ask::Show | Ask::Line)))
    }

    // The plan once more, when a first run has told the sizes: each line that comes out has a place of its own in the memory,
    // and every cell of a shown sheet is asked for.
    pub fn unrolled(&self, heap: Global, said: &[Said<T>]) -> Result<Plan<T>, AllocError>
        ensures items { IfOk result (λ plan. AllAsked plan.items.items → AllAsked self.now.items.items) }
        ensures lines { IfOk result (λ plan. plan.items.items ≡ (unrolled self.now.calls.items said.now self.now.items.items).items) }
        ensures calls { IfOk result (λ plan. plan.calls.items ≡ (unrolled self.now.calls.items said.now self.now.items.items).calls) }
        ensures pool { IfOk result (λ plan. plan.pool ≡ capped ((unrolled self.now.calls.items said.now self.now.items.items).pool + side_limit)) }
    {
        let mut plan = Plan::new(heap, 0);
        for item in self.items.iter() {
            let first = plan.calls.len();
            for call in item.part.of(self.calls.as_slice()) {
                plan.calls.push(moved(*call, plan.pool))?;
            }
            plan.unroll(item.ask, item.part.of(said))?;
            plan.note(item.number, item.ask, first)?;
        }
        plan.pool = plan.pool.saturating_add(SIDE);
        Ok(plan)
    }

    // Room for a line that comes out, and every cell of a sheet that is shown, when the calls have said this.
    fn unroll(&mut self, ask: Result<Ask, Wrong>, said: &[Said<T>]) -> Result<(), AllocError>
        ensures items { self.new.items ≡ self.old.items }
        ensures calls { IfOk result (λ _. self.new.calls.items ≡ self.old.calls.items ++ asked_again ask said.now) }
        ensures pool { IfOk result (λ _. self.new.pool ≡ pool_after ask said.now self.old.pool) }
    {
        match (ask, said) {
            (Ok(Ask::Show), [Said::Sized(rows, cols)]) => self.ask_cells(*rows, *cols),
            (Ok(Ask::Line), said) => {
                self.pool = self.pool.saturating_add(line_length(said).unwrap_or(0));
                Ok(())
            }
            _ => Ok(()),
        }
    }

    // Every cell of a sheet of that size, row by row.
    // kept: a row and a column are what is asked for, and index nothing here
    fn ask_cells(&mut self, rows: usize, cols: usize) -> Result<(), AllocError>
        ensures items { self.new.items ≡ self.old.items }
        ensures calls { IfOk result (λ _. self.new.calls.items ≡ self.old.calls.items ++ cells_asked rows cols) }
        ensures pool { self.new.pool ≡ self.old.pool }
    {
        for r in 0..rows {
            for c in 0..cols {
                self.calls.push(Call::Get(r, c))?;
            }
        }
        Ok(())
    }
}

// Memory for a line, at the start of the pool. No line of a board is longer, so that more memory for one changes no answer.
fn lent(room: usize) -> Segment
    ensures answer { result ≡ room_lent room }
{
    Segment {
        start: 0,
        len: room.min(SIDE),
    }
}

// The same call with its memory from `start` on.
fn moved<T: Written>(call: Call<T>, start: usize) -> Call<T>
    ensures answer { result ≡ moved_to start call }
{
    match call {
        Call::Remove(axis, i, Segment { len, .. }) => Call::Remove(axis, i, Segment { start, len }),
        Call::StepBack(Segment { len, .. }) => Call::StepBack(Segment { start, len }),
        _ => call,
    }
}

// How long the line is that came or went by the call between two sizes, if one did.
pub fn line_length<T: Written>(said: &[Said<T>]) -> Option<usize>
    ensures answer { result ≡ line_between said.now }
{
    match said {
        [
            Said::Sized(rows, cols),
            _,
            Said::Sized(rows_after, cols_after),
        ] => {
            let before = rows.saturating_mul(*cols);
            let after = rows_after.saturating_mul(*cols_after);
            (before != after).then_some(before.abs_diff(after))
        }
        _ => None,
    }
}
