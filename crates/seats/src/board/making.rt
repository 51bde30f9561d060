// Making a seat board, in two calls: a check that may refuse, and a making that never does.
// kept: no `Result` of the making, since by the rules a board always stands over the memory that is lent, with S = 0 where refused.
ghost use Rattle.std.specs.Prelude.{◌≡◌, length};
ghost use Rattle.matrix.specs.declared.axis.Axis.TheVariants.{Row};
ghost use Rattle.matrix.specs.Matrix.{empty};
ghost use Rattle.seats.specs.Boards.{matrix, limits, seats_answer, made_limits};

use crate::board::SeatBoard;
use cells::refusal::Refusal;
use matrix::axis::Axis;
use matrix::limits::SIDE;
use seating::seating::Seating;

// Whether a memory has room for a board of `side` rows and columns.
pub fn seats_check(memory: usize, side: usize) -> Result<(), Refusal>
    ensures answer { result ≡ seats_answer memory side }
{
    if SIDE < side || memory < side * side {
        return Err(Refusal::Memory);
    }
    Ok(())
}

impl<'a, T: Copy> SeatBoard<'a, T> {
    // An empty board; S is 0 where `seats_check` refuses.
    pub fn new(cells: &'a mut [T], side: usize) -> SeatBoard<'a, T>
        ensures effect { matrix result ≡ empty }
        ensures cells { result.cells.now ≡ cells.old }
        ensures limits { limits result ≡ made_limits (length cells.old) side }
        ensures facing { result.facing ≡ Row }
        ensures memory { result.cells.ghost_name ≡ cells.entry.ghost_name }
    {
        let side = if seats_check(cells.len(), side).is_ok() {
            side
        } else {
            0
        };
        let seats = Seating::empty(side);
        SeatBoard {
            cells,
            seats,
            facing: Axis::Row,
        }
    }

    // Ends the board: its memory.
    pub fn into_cells(self) -> &'a mut [T]
        ensures cells { result.now ≡ self.entry.cells.now }
        ensures memory { result.ghost_name ≡ self.entry.cells.ghost_name }
    {
        let SeatBoard {
            cells,
            seats: _,
            facing: _,
        } = self;
        cells
    }
}
