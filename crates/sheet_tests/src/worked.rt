// The worked cases, each on every board and every keep.
use crate::expect::equal;
use boards::board::Board;
use boards::turned::TurnedBoard;
use cells::kinds::Penalty;
use cells::refusal::Refusal;
use grid::grid::Grid;
use keeps::joined::JoinedKeep;
use keeps::keep::Keep;
use keeps::stack::StackKeep;
use matrix::axis::Axis;
use matrix::shape::Order;
use seats::board::SeatBoard;
use sheet::sheets::OpenSheet;
use std::process::Abort;

// What is done on a sheet of an empty board and an empty keep.
// kept: the struct of a board and a keep is OpenSheet, and a case may write on its board first; the handle is to assert by.
trait SheetCase {
    fn on_sheet<B: Board<Cell = Penalty> + Drop, K: Keep<Cell = Penalty> + Drop>(
        &self,
        rt: &impl Abort,
        board: B,
        keep: K,
    );
}

// What is done on an empty board.
trait BoardCase {
    fn on_board<B: Board<Cell = Penalty> + Drop>(&self, rt: &impl Abort, board: B);
}

// Penalties 0 0 / 0 0: two seconds at (0, 1), and row 0 is withdrawn. Two steps back leave every thousandth where it was.
#[derive(Clone, Copy)]
struct Lifted;

impl SheetCase for Lifted {
    fn on_sheet<B: Board<Cell = Penalty> + Drop, K: Keep<Cell = Penalty> + Drop>(
        &self,
        rt: &impl Abort,
        mut board: B,
        keep: K,
    ) {
        let none = [Penalty(0), Penalty(0)];
        let mut memory = [Penalty(-1); 3];
        equal(rt, board.insert(Axis::Row, 0, &none), Ok(()));
        equal(rt, board.insert(Axis::Row, 0, &none), Ok(()));
        let mut sheet = OpenSheet::new(board, keep);
        equal(rt, sheet.put(0, 1, Penalty(2000)), Ok(()));
        equal(rt, sheet.remove(Axis::Row, 0, &mut memory), Ok(()));
        equal(rt, memory[1].0, 2000);
        equal(rt, memory[2].0, -1);
        equal(rt, sheet.owed(), 2);
        equal(rt, sheet.kept(), 3);
        equal(rt, sheet.step_back(&mut memory), Ok(()));
        equal(rt, sheet.kept(), 1);
        equal(rt, sheet.get(0, 1), Some(Penalty(2000)));
        equal(rt, sheet.step_back(&mut memory), Ok(()));
        equal(rt, sheet.kept(), 0);
        equal(rt, sheet.size(), (2, 2));
        for (r, c) in [(0, 0), (0, 1), (1, 0), (1, 1)] {
            equal(rt, sheet.get(r, c), Some(Penalty(0)));
        }
        equal(rt, sheet.step_back(&mut memory), Err(Refusal::NothingOwed));
    }
}

// 256 edits are owed, and the next is refused; after a step back it is accepted.
#[derive(Clone, Copy)]
struct Journal;

impl SheetCase for Journal {
    fn on_sheet<B: Board<Cell = Penalty> + Drop, K: Keep<Cell = Penalty> + Drop>(
        &self,
        rt: &impl Abort,
        board: B,
        keep: K,
    ) {
        let mut memory = [Penalty(0); 1];
        let mut sheet = OpenSheet::new(board, keep);
        equal(rt, sheet.insert(Axis::Row, 0, &[Penalty(5)]), Ok(()));
        for _ in 0..255 {
            equal(rt, sheet.transpose(), Ok(()));
        }
        equal(rt, sheet.owed(), 256);
        equal(rt, sheet.transpose(), Err(Refusal::Journal));
        equal(rt, sheet.flip(Axis::Row), Err(Refusal::Journal));
        equal(rt, sheet.put(0, 0, Penalty(1)), Err(Refusal::Journal));
        equal(rt, sheet.put(1, 0, Penalty(1)), Err(Refusal::Place));
        equal(
            rt,
            sheet.remove(Axis::Col, 0, &mut memory),
            Err(Refusal::Journal),
        );
        equal(rt, sheet.get(0, 0), Some(Penalty(5)));
        equal(rt, sheet.step_back(&mut memory), Ok(()));
        equal(rt, sheet.flip(Axis::Col), Ok(()));
        let published = sheet.publish();
        equal(rt, published.settled(), 256);
        let reopened = published.reopen();
        equal(rt, reopened.owed(), 0);
    }
}

// 256 rows stand, and the next is refused for its side: that is asked before the journal, which is full too.
#[derive(Clone, Copy)]
struct Side;

impl SheetCase for Side {
    fn on_sheet<B: Board<Cell = Penalty> + Drop, K: Keep<Cell = Penalty> + Drop>(
        &self,
        rt: &impl Abort,
        board: B,
        keep: K,
    ) {
        let mut sheet = OpenSheet::new(board, keep);
        // kept: the number of a row itself goes in, as its place and as its cell, and comes out below.
        for k in 0..256u16 {
            let cell = Penalty(i32::from(k));
            equal(rt, sheet.insert(Axis::Row, usize::from(k), &[cell]), Ok(()));
        }
        equal(
            rt,
            sheet.insert(Axis::Row, 256, &[Penalty(0)]),
            Err(Refusal::Side),
        );
        equal(rt, sheet.size(), (256, 1));
        for k in (0..256u16).rev() {
            let mut memory = [Penalty(0); 1];
            equal(rt, sheet.step_back(&mut memory), Ok(()));
            equal(rt, memory[0].0, i32::from(k));
        }
        equal(rt, sheet.size(), (0, 0));
    }
}

// The sheet has these rows, and owes and keeps so many edits and cells.
fn stands<B: Board<Cell = Penalty> + Drop, K: Keep<Cell = Penalty> + Drop>(
    rt: &impl Abort,
    sheet: &OpenSheet<B, K>,
    rows: &[&[i32]],
    owed: usize,
    kept: usize,
) {
    for (r, row) in rows.iter().enumerate() {
        for (c, x) in row.iter().enumerate() {
            equal(rt, sheet.get(r, c), Some(Penalty(*x)));
        }
        equal(rt, sheet.size(), (rows.len(), row.len()));
    }
    equal(rt, sheet.owed(), owed);
    equal(rt, sheet.kept(), kept);
}

const FIRST: [Penalty; 3] = [Penalty(1), Penalty(2), Penalty(3)];

const SECOND: [Penalty; 3] = [Penalty(4), Penalty(5), Penalty(6)];

const BLANK: [Penalty; 4] = [Penalty(-1); 4];

// Both rows, on a board without one.
fn lay_two(rt: &impl Abort, board: &mut impl Board<Cell = Penalty>) {
    equal(rt, board.insert(Axis::Row, 0, &FIRST), Ok(()));
    equal(rt, board.insert(Axis::Row, 1, &SECOND), Ok(()));
}

// A keep of four cells: a removal that finds too little room is refused, and so is a put that finds none, and both leave all as
// it was. A step back makes room again.
#[derive(Clone, Copy)]
struct KeepFull;

impl SheetCase for KeepFull {
    fn on_sheet<B: Board<Cell = Penalty> + Drop, K: Keep<Cell = Penalty> + Drop>(
        &self,
        rt: &impl Abort,
        mut board: B,
        keep: K,
    ) {
        let mut memory = BLANK;
        lay_two(rt, &mut board);
        let mut sheet = OpenSheet::new(board, keep);
        equal(rt, sheet.put(0, 0, Penalty(7)), Ok(()));
        equal(rt, sheet.put(0, 1, Penalty(8)), Ok(()));
        equal(
            rt,
            sheet.remove(Axis::Row, 1, &mut memory),
            Err(Refusal::Keep),
        );
        equal(rt, memory, BLANK);
        stands(rt, &sheet, &[&[7, 8, 3], &[4, 5, 6]], 2, 2);
        equal(rt, sheet.remove(Axis::Col, 0, &mut memory), Ok(()));
        equal(
            rt,
            memory,
            [Penalty(7), Penalty(4), Penalty(-1), Penalty(-1)],
        );
        memory = BLANK;
        equal(rt, sheet.put(1, 1, Penalty(9)), Err(Refusal::Keep));
        equal(rt, sheet.put(1, 2, Penalty(9)), Err(Refusal::Place));
        equal(
            rt,
            sheet.remove(Axis::Row, 0, &mut memory),
            Err(Refusal::Keep),
        );
        equal(rt, memory, BLANK);
        stands(rt, &sheet, &[&[8, 3], &[5, 6]], 3, 4);
        equal(rt, sheet.step_back(&mut memory), Ok(()));
        equal(rt, sheet.put(1, 1, Penalty(9)), Ok(()));
        stands(rt, &sheet, &[&[7, 8, 3], &[4, 9, 6]], 3, 3);
    }
}

// Memory that is shorter than the line that goes out: refused, and all is left as it was.
#[derive(Clone, Copy)]
struct ShortOut;

impl SheetCase for ShortOut {
    fn on_sheet<B: Board<Cell = Penalty> + Drop, K: Keep<Cell = Penalty> + Drop>(
        &self,
        rt: &impl Abort,
        mut board: B,
        keep: K,
    ) {
        let mut one = [Penalty(-1); 1];
        let mut two = [Penalty(-1); 2];
        lay_two(rt, &mut board);
        let mut sheet = OpenSheet::new(board, keep);
        equal(
            rt,
            sheet.remove(Axis::Row, 0, &mut two),
            Err(Refusal::Short),
        );
        equal(
            rt,
            sheet.remove(Axis::Col, 0, &mut one),
            Err(Refusal::Short),
        );
        equal(rt, one, [Penalty(-1); 1]);
        equal(rt, two, [Penalty(-1); 2]);
        stands(rt, &sheet, &[&[1, 2, 3], &[4, 5, 6]], 0, 0);
    }
}

// Memory that is shorter than the line that a step back takes out: refused, and all is left as it was.
#[derive(Clone, Copy)]
struct ShortBack;

impl SheetCase for ShortBack {
    fn on_sheet<B: Board<Cell = Penalty> + Drop, K: Keep<Cell = Penalty> + Drop>(
        &self,
        rt: &impl Abort,
        mut board: B,
        keep: K,
    ) {
        let mut one = [Penalty(-1); 1];
        let mut two = [Penalty(-1); 2];
        let mut three = [Penalty(-1); 3];
        let mut memory = BLANK;
        lay_two(rt, &mut board);
        let mut sheet = OpenSheet::new(board, keep);
        equal(
            rt,
            sheet.insert(Axis::Col, 1, &[Penalty(10), Penalty(11)]),
            Ok(()),
        );
        equal(rt, sheet.step_back(&mut one), Err(Refusal::Short));
        equal(rt, one, [Penalty(-1); 1]);
        stands(rt, &sheet, &[&[1, 10, 2, 3], &[4, 11, 5, 6]], 1, 0);
        equal(rt, sheet.remove(Axis::Row, 1, &mut memory), Ok(()));
        equal(rt, sheet.step_back(&mut three), Err(Refusal::Short));
        equal(rt, three, [Penalty(-1); 3]);
        stands(rt, &sheet, &[&[1, 10, 2, 3]], 2, 4);
        memory = BLANK;
        equal(rt, sheet.step_back(&mut memory), Ok(()));
        equal(
            rt,
            memory,
            [Penalty(4), Penalty(11), Penalty(5), Penalty(6)],
        );
        equal(rt, sheet.step_back(&mut two), Ok(()));
        equal(rt, two, [Penalty(10), Penalty(11)]);
        stands(rt, &sheet, &[&[1, 2, 3], &[4, 5, 6]], 0, 0);
    }
}

// The case on a stack of four cells.
#[derive(Clone, Copy)]
struct Stacked<C>(C);

impl<C: SheetCase> BoardCase for Stacked<C> {
    fn on_board<B: Board<Cell = Penalty> + Drop>(&self, rt: &impl Abort, board: B) {
        let mut four = [Penalty(0); 4];
        self.0.on_sheet(rt, board, StackKeep::new(&mut four));
    }
}

// The case on a stack of one cell joined to one of three.
#[derive(Clone, Copy)]
struct Joined<C>(C);

impl<C: SheetCase> BoardCase for Joined<C> {
    fn on_board<B: Board<Cell = Penalty> + Drop>(&self, rt: &impl Abort, board: B) {
        let mut one = [Penalty(0); 1];
        let mut three = [Penalty(0); 3];
        let keep = JoinedKeep::new(StackKeep::new(&mut one), StackKeep::new(&mut three));
        self.0.on_sheet(rt, board, keep);
    }
}

// The case on the board turned.
#[derive(Clone, Copy)]
struct Turned<C>(C);

impl<C: BoardCase> BoardCase for Turned<C> {
    fn on_board<B: Board<Cell = Penalty> + Drop>(&self, rt: &impl Abort, board: B) {
        self.0.on_board(rt, TurnedBoard::over(board));
    }
}

fn on_each(rt: &impl Abort, case: impl BoardCase + Copy) {
    for order in [Order::RowMajor, Order::ColumnMajor] {
        let mut room = [Penalty(0); 512];
        case.on_board(rt, Grid::from_vec_with_order(&mut room, 0, 0, order));
    }
    let mut room = [Penalty(0); 65536];
    case.on_board(rt, SeatBoard::new(&mut room, 256));
}

fn everywhere(rt: &impl Abort, case: impl SheetCase + Copy) {
    on_each(rt, Stacked(case));
    on_each(rt, Turned(Stacked(case)));
    on_each(rt, Joined(case));
    on_each(rt, Turned(Joined(case)));
}

#[test]
fn penalty_lifted_and_crew_back(rt: HostRuntime) {
    everywhere(&rt, Lifted);
}

#[test]
fn journal_of_256_edits(rt: HostRuntime) {
    everywhere(&rt, Journal);
}

#[test]
fn side_of_256_rows(rt: HostRuntime) {
    everywhere(&rt, Side);
}

#[test]
fn keep_full(rt: HostRuntime) {
    everywhere(&rt, KeepFull);
}

#[test]
fn memory_too_short_for_a_removal(rt: HostRuntime) {
    everywhere(&rt, ShortOut);
}

#[test]
fn memory_too_short_for_a_step_back(rt: HostRuntime) {
    everywhere(&rt, ShortBack);
}
