// Making the recorded calls on a grid, and comparing answers and grids with the original's.
ghost use Rattle.std.specs.Prelude.{◌-◌};

use crate::entry::{After, Answer, Call, Cell, Entry, Making, Panicked, Step};
use cells::refusal::Refusal;
use grid::grid::Grid;
use mapping::map::map_ref;
use mapping::rule::CellRule;
use matrix::axis::Axis;
use matrix::limits::SIDE;
use matrix::making::{from_vec_check, new_check};
use matrix::shape::Order;
use std::alloc::{AllocError, Global};
use std::fmt;
use walks::index::indexed_iter;
use walks::line::{LineWalk, iter_col, iter_row};
use walks::lines::{End, LinesWalk, iter_cols, iter_rows};
use walks::walk::{Walk, read};

// What stands in the memory for a line before the call.
const UNTOUCHED: Cell = Cell(u32::MAX);

#[derive(Clone, Copy)]
pub enum Part {
    Answer,
    Grid,
    Flat,
}

// A line of the list at which the two differ, and in what.
#[derive(Clone, Copy)]
pub struct Difference {
    pub number: usize,
    pub part: Part,
}

// The calls made so far, and where they differed; a call is noted once.
#[derive(Drop)]
pub struct Tally {
    pub calls: usize,
    pub differ: Vec<Difference>,
}

// The rule by which the recorder maps: what the cell lacks of the largest number.
#[derive(Clone, Copy)]
struct Lacking;

impl CellRule for Lacking {
    type From = Cell;

    type To = Cell;

    ghost rule = { λ x. record { 0 = 4294967295 - x.0 } };

    fn answer(&self, x: Cell) -> Cell {
        Cell(u32::MAX - x.0)
    }
}

impl fmt::Display for Part {
    fn fmt<W: fmt::Write>(&self, f: &mut fmt::Formatter<W>) -> fmt::Result {
        f.write_str(match self {
            Part::Answer => "the answer",
            Part::Grid => "the grid after it",
            Part::Flat => "the flat cells",
        })
    }
}

impl Tally {
    // One more call, and in what it differed, if in anything.
    fn count(&mut self, number: usize, part: Option<Part>) -> Result<(), AllocError> {
        self.calls = self.calls.wrapping_add(1);
        match part {
            Some(part) => self.note(number, part),
            None => Ok(()),
        }
    }

    fn note(&mut self, number: usize, part: Part) -> Result<(), AllocError> {
        if self.differ.last().is_none_or(|last| last.number != number) {
            self.differ.push(Difference { number, part })?;
        }
        Ok(())
    }
}

// What a call on a grid answers, as the list has it.
impl From<()> for Answer {
    fn from(_done: ()) -> Answer {
        Answer::Done(Ok(()))
    }
}

impl From<Result<(), Refusal>> for Answer {
    fn from(r: Result<(), Refusal>) -> Answer {
        Answer::Done(r.map_err(|_| Panicked))
    }
}

impl From<Option<Cell>> for Answer {
    fn from(cell: Option<Cell>) -> Answer {
        Answer::Cell(cell)
    }
}

impl From<bool> for Answer {
    fn from(yes: bool) -> Answer {
        Answer::Said(yes)
    }
}

impl From<(usize, usize)> for Answer {
    fn from(size: (usize, usize)) -> Answer {
        Answer::Size(size.0, size.1)
    }
}

// Makes all the calls, each grid over the same memory.
pub fn replayed(heap: Global, memory: &mut [Cell], all: &[Entry]) -> Result<Tally, AllocError> {
    let mut tally = Tally {
        calls: 0,
        differ: Vec::new(heap),
    };
    for block in all.chunk_by(|_, next| !next.begins()) {
        run_block(heap, memory, block, &mut tally)?;
    }
    Ok(tally)
}

// Makes the grid that the first entry begins, over the memory, and the calls on it. Calls before any grid are passed over.
fn run_block(
    heap: Global,
    memory: &mut [Cell],
    block: &[Entry],
    tally: &mut Tally,
) -> Result<(), AllocError> {
    let [first, rest @ ..] = block else {
        return Ok(());
    };
    let Step::Begin(order, making) = &first.step else {
        return Ok(());
    };
    let answer = Answer::from(may_make(memory.len(), making));
    let mut grid = make(memory, *order, making);
    tally.count(first.number, compared(&grid, &answer, first))?;
    for e in rest {
        if let Step::Call(call) = &e.step {
            let answer = made(heap, &mut grid, call)?;
            tally.count(e.number, compared(&grid, &answer, e))?;
        }
    }
    let last = rest.last().unwrap_or(first);
    let (cells, n) = grid.into_vec();
    if n != last.after.flat.len() || !cells.starts_with(last.after.flat.as_slice()) {
        tally.note(last.number, Part::Flat)?;
    }
    Ok(())
}

fn may_make(memory: usize, making: &Making) -> Result<(), Refusal> {
    match making {
        Making::New(rows, cols) | Making::Init(rows, cols, _) => new_check(memory, *rows, *cols),
        Making::FromVec(cols, cells) => from_vec_check(memory, cells.len(), *cols),
    }
}

// The grid of the call.
// kept: cells are laid as in tests of grids, which lay bytes: a function of both would stand in `grid`, which lays no cells itself
fn make<'a>(memory: &'a mut [Cell], order: Order, making: &Making) -> Grid<'a, Cell> {
    match making {
        Making::New(rows, cols) => Grid::new_with_order(memory, *rows, *cols, order),
        Making::Init(rows, cols, x) => Grid::init_with_order(memory, *rows, *cols, order, *x),
        Making::FromVec(cols, cells) => {
            let n = cells.len();
            if n <= memory.len() {
                memory[..n].copy_from_slice(cells.as_slice());
            }
            Grid::from_vec_with_order(memory, n, *cols, order)
        }
    }
}

// Makes the call, and says what it answered.
// kept: rows and columns apart, since what is compared are the calls that bear the original's names; one along an axis would
// leave them untried
fn made(heap: Global, grid: &mut Grid<'_, Cell>, call: &Call) -> Result<Answer, AllocError> {
    let (rows, cols) = grid.size();
    Ok(match call {
        Call::Insert(Axis::Row, i, line) => grid.insert_row(*i, line.as_slice()).into(),
        Call::Insert(Axis::Col, i, line) => grid.insert_col(*i, line.as_slice()).into(),
        Call::Push(Axis::Row, line) => grid.push_row(line.as_slice()).into(),
        Call::Push(Axis::Col, line) => grid.push_col(line.as_slice()).into(),
        Call::Remove(Axis::Row, i) => taken(heap, cols, |line| grid.remove_row(*i, line))?,
        Call::Remove(Axis::Col, i) => taken(heap, rows, |line| grid.remove_col(*i, line))?,
        Call::Pop(Axis::Row) => taken(heap, cols, |line| grid.pop_row(line))?,
        Call::Pop(Axis::Col) => taken(heap, rows, |line| grid.pop_col(line))?,
        Call::Delete(Axis::Row, i) => grid.delete_row(*i).into(),
        Call::Delete(Axis::Col, i) => grid.delete_col(*i).into(),
        Call::Expand(Axis::Row, n) => grid.expand_rows(*n).into(),
        Call::Expand(Axis::Col, n) => grid.expand_cols(*n).into(),
        Call::Prepend(Axis::Row, n) => grid.prepend_rows(*n).into(),
        Call::Prepend(Axis::Col, n) => grid.prepend_cols(*n).into(),
        Call::Flip(Axis::Row) => grid.flip_rows().into(),
        Call::Flip(Axis::Col) => grid.flip_cols().into(),
        Call::Transpose => grid.transpose().into(),
        Call::RotateLeft => grid.rotate_left().into(),
        Call::RotateRight => grid.rotate_right().into(),
        Call::RotateHalf => grid.rotate_half().into(),
        Call::Put(r, c, x) => grid.put(*r, *c, *x).into(),
        Call::Swap(a, b) => grid.swap(*a, *b).into(),
        Call::Fill(x) => grid.fill(*x).into(),
        Call::Clear => grid.clear().into(),
        Call::Get(r, c) => grid.get(*r, *c).into(),
        Call::Same(order, cols, cells) => equal(
            heap,
            grid,
            *order,
            *cols,
            cells.as_slice(),
        )?.into(),
        Call::IsEmpty => grid.is_empty().into(),
        Call::Size => grid.size().into(),
        Call::Iter(Axis::Row, i) => walked(heap, grid, iter_row(grid, *i))?,
        Call::Iter(Axis::Col, i) => walked(heap, grid, iter_col(grid, *i))?,
        Call::IterLines(Axis::Row, ends) => lines(heap, grid, iter_rows(grid), ends.as_slice())?,
        Call::IterLines(Axis::Col, ends) => lines(heap, grid, iter_cols(grid), ends.as_slice())?,
        Call::IndexedIter => places(heap, grid)?,
        Call::MapRef => mapped(heap, grid)?,
    })
}

// Whether a grid of these cells is equal; it stands over memory of its own.
fn equal(
    heap: Global,
    grid: &Grid<'_, Cell>,
    order: Order,
    cols: usize,
    cells: &[Cell],
) -> Result<bool, AllocError> {
    let mut memory = Vec::from_slice(heap, cells)?;
    let other = Grid::from_vec_with_order(memory.as_mut_slice(), cells.len(), cols, order);
    Ok(grid.same(&other))
}

// The line that a call hands out, of that length, or none where it refuses.
fn taken<F: FnOnce(&mut [Cell]) -> Result<(), Refusal>>(
    heap: Global,
    len: usize,
    call: F,
) -> Result<Answer, AllocError>
    requires { F.IsAlwaysCallable call }
{
    let mut memory = [UNTOUCHED; SIDE];
    let answer = call(&mut memory);
    let n = if answer.is_ok() { len.min(SIDE) } else { 0 };
    let (line, beyond) = memory.split_at(n);
    if beyond.iter().any(|x| *x != UNTOUCHED) {
        return Ok(Answer::Overrun);
    }
    match answer {
        Ok(()) => Ok(Answer::Line(Some(Vec::from_slice(heap, line)?))),
        Err(_) => Ok(Answer::Line(None)),
    }
}

// The cells of the line that a walk goes along, or the refusal of the line.
fn walked(
    heap: Global,
    grid: &Grid<'_, Cell>,
    walk: Result<LineWalk, Refusal>,
) -> Result<Answer, AllocError> {
    match walk {
        Ok(walk) => Ok(Answer::Line(Some(line(heap, grid, walk)?))),
        Err(_) => Ok(Answer::Done(Err(Panicked))),
    }
}

// All that a walk along a line gives.
fn line(heap: Global, grid: &Grid<'_, Cell>, mut walk: LineWalk) -> Result<Vec<Cell>, AllocError> {
    let mut memory = [UNTOUCHED; SIDE];
    let n = read(&mut walk, grid, &mut memory);
    let (line, _) = memory.split_at(n.min(SIDE));
    Vec::from_slice(heap, line)
}

// The line that comes from each end.
fn lines(
    heap: Global,
    grid: &Grid<'_, Cell>,
    mut walk: LinesWalk,
    ends: &[End],
) -> Result<Answer, AllocError> {
    let mut all = Vec::new(heap);
    for end in ends {
        let next = match end {
            End::Front => walk.next(grid),
            End::Back => walk.next_back(grid),
        };
        all.push(match next {
            Some(walk) => Some(line(heap, grid, walk)?),
            None => None,
        })?;
    }
    Ok(Answer::Lines(all))
}

// All cells with their places, where there is room for one more than there are.
fn places(heap: Global, grid: &Grid<'_, Cell>) -> Result<Answer, AllocError> {
    let (rows, cols) = grid.size();
    let room = rows.saturating_mul(cols).saturating_add(1);
    let mut all = vec![in heap; ((0, 0), UNTOUCHED); room]?;
    let mut walk = indexed_iter(grid);
    let n = read(&mut walk, grid, all.as_mut_slice());
    all.truncate(n);
    Ok(Answer::Places(all))
}

// All cells of the grid mapped, with their places, over memory of its own that is exactly full.
fn mapped(heap: Global, grid: &Grid<'_, Cell>) -> Result<Answer, AllocError> {
    let (rows, cols) = grid.size();
    let mut memory = vec![in heap; UNTOUCHED; rows.saturating_mul(cols)]?;
    let mapped = map_ref(grid, &Lacking, memory.as_mut_slice());
    places(heap, &mapped)
}

// Whether and in what the call's answer or the grid after it differs from the original's.
fn compared(grid: &Grid<'_, Cell>, answer: &Answer, e: &Entry) -> Option<Part> {
    if *answer != e.answer {
        Some(Part::Answer)
    } else if !stands(grid, &e.after) {
        Some(Part::Grid)
    } else {
        None
    }
}

// Whether the grid has the order, the size and the cells that the original's has after the call.
fn stands(grid: &Grid<'_, Cell>, after: &After) -> bool {
    if grid.order() != after.order || grid.size() != (after.rows, after.cols) {
        return false;
    }
    if after.rows.checked_mul(after.cols) != Some(after.flat.len()) {
        return false;
    }
    let (_, len) = lying(after.order, (after.rows, after.cols));
    after.flat.chunks(len.max(1)).enumerate().all(|(i, line)| {
        line.iter().enumerate().all(|(j, x)| {
            let (r, c) = lying(after.order, (i, j));
            grid.get(r, c) == Some(*x)
        })
    })
}

// Rows and columns as flat cells lie, lines first, or back again.
fn lying(order: Order, (rows, cols): (usize, usize)) -> (usize, usize) {
    // kept: a pair of two numbers or the same turned, and no step to run; `Axis::pair` would need an axis of the order first
    match order {
        Order::RowMajor => (rows, cols),
        Order::ColumnMajor => (cols, rows),
    }
}
