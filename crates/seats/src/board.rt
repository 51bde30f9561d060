// What a seat board is.
use matrix::axis::Axis;
use seating::seating::Seating;

pub mod calls;
pub mod lines;
pub mod making;

// S × S cells that never move, two tables that say which seat is which row and column, and which lines of the tables the
// board's rows are. Cells on unused seats are free.
#[derive(Drop)]
pub struct SeatBoard<'a, T> {
    // kept: no heap, so the memory is lent; no length stands beside it
    cells: &'a mut [T],
    seats: Seating,
    facing: Axis,
}
