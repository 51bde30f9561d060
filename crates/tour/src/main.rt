// The example of the README: a grid over lent memory, and a sheet that steps back.
#![tactic(auto)]

use boards::board::Board;
use cells::kinds::{Mark, Passage, Penalty};
use cells::refusal::Refusal;
use grid::grid::Grid;
use keeps::keep::Keep;
use keeps::stack::StackKeep;
use matrix::axis::Axis;
use sheet::sheets::OpenSheet;

// One crew at three timing points; another comes after it, and the crews become columns.
fn key(memory: &mut [Passage]) -> Result<(usize, usize), Refusal> {
    let mut grid = Grid::new(memory, 1, 3);
    grid.put(0, 1, Passage::Time(61250))?;
    grid.insert_row(
        1,
        &[
            Passage::Blank,
            Passage::Mark(Mark::DidNotStart),
            Passage::Blank,
        ],
    )?;
    grid.transpose();
    Ok(grid.size())
}

// A penalty is raised and its crew withdrawn, and both are taken back, the last edit first. Any board and any keep will do.
fn lift<B: Board<Cell = Penalty> + Drop, K: Keep<Cell = Penalty> + Drop>(
    board: B,
    keep: K,
) -> Result<Option<Penalty>, Refusal> {
    let mut sheet = OpenSheet::new(board, keep);
    let mut line = [Penalty(0); 2];
    sheet.put(0, 1, Penalty(500))?;
    sheet.put(0, 1, Penalty(2000))?;
    sheet.remove(Axis::Row, 0, &mut line)?;
    sheet.step_back(&mut line)?;
    sheet.step_back(&mut line)?;
    Ok(sheet.get(0, 1))
}

fn main(rt: HostRuntime) -> anyhow::Result<()> {
    let mut passages = [Passage::Blank; 12];
    match key(&mut passages) {
        Ok((rows, cols)) => println!(rt; "{} points of {} crews", rows, cols)?,
        Err(refusal) => println!(rt; "{}", refusal)?,
    }
    let mut penalties = [Penalty(0); 4];
    let mut taken_off = [Penalty(0); 8];
    let board = Grid::new(&mut penalties, 2, 2);
    match lift(board, StackKeep::new(&mut taken_off)) {
        Ok(Some(penalty)) => println!(rt; "{} thousandths of penalty", penalty.0)?,
        Ok(None) => println!(rt; "no such place")?,
        Err(refusal) => println!(rt; "{}", refusal)?,
    }
    Ok(())
}
