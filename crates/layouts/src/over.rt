// A board made of its layout, and work that is written once for any board.
ghost use Rattle.std.specs.Prelude.{◌≡◌, ◌≤◌, ◌%◌, length};
ghost use Rattle.matrix.specs.declared.limits.Limits.{Limits};
ghost use Rattle.matrix.specs.Matrix.{Matrix, empty};
ghost use Rattle.layouts.specs.Layouts.{memory_under, ground_answer, ground_limits};

use boards::board::Board;
use boards::turned::TurnedBoard;
use cells::refusal::Refusal;
use grid::grid::Grid;
use listing::call::{Ground, Layout};
use matrix::limits::SIDE;
use matrix::making::from_vec_check;
use seats::board::SeatBoard;
use seats::board::making::seats_check;

// Work on a board, whichever it is. `gives` is what may come of it, of a board with that matrix and those limits.
pub trait Work<T: Copy>: Sized {
    type Out;

    ghost gives: { Self → Matrix T → Limits → Self.Out → Type 0 };

    fn on<B: Board<Cell = T> + Drop>(self, board: B) -> Self::Out
        ensures gives { gives self (B.Board.matrix board) (B.Board.limits board) result };
}

// How many cells of memory a ground is handed.
pub fn cells_under(ground: Ground) -> usize
    ensures answer { result ≡ memory_under ground }
{
    match ground {
        Ground::Grid(_, cells) => cells,
        Ground::Seats(side) if side <= SIDE => side * side,
        Ground::Seats(_) => 0,
    }
}

// Whether a ground can be made.
pub fn ground_check(ground: Ground) -> Result<(), Refusal>
    ensures answer { result ≡ ground_answer ground }
{
    match ground {
        Ground::Grid(_, cells) => from_vec_check(cells, 0, 0),
        Ground::Seats(side) => seats_check(cells_under(ground), side),
    }
}

// Does the work on the board of a layout over the memory, which is empty.
pub fn over<T: Copy, K: Work<T>>(layout: Layout, memory: &mut [T], work: K) -> K::Out
    ensures made { K.gives work empty (ground_limits (length memory.old) layout.ground) result }
{
    match layout.ground {
        Ground::Grid(order, _) => {
            let grid = Grid::from_vec_with_order(memory, 0, 0, order);
            turned(layout.turns, grid, work)
        }
        Ground::Seats(side) => turned(layout.turns, SeatBoard::new(memory, side), work),
    }
}

// The fewest turns that are made for as many: a board that is turned twice is itself again, so that an even number but none is two,
// and an odd number one.
fn fewest(turns: usize) -> usize
    ensures few { result ≤ 2 }
    ensures parity { result % 2 ≡ turns % 2 }
{
    if turns <= 2 { turns } else { 2 - turns % 2 }
}

// Turns an empty board. A type says how often its board is turned.
fn turned<T: Copy, B: Board<Cell = T> + Drop, K: Work<T>>(turns: usize, board: B, work: K) -> K::Out
    requires { B.Board.matrix board ≡ empty }
    ensures made { K.gives work empty (B.Board.limits board) result }
{
    match fewest(turns) {
        0 => work.on(board),
        1 => work.on(TurnedBoard::over(board)),
        _ => work.on(TurnedBoard::over(TurnedBoard::over(board))),
    }
}
