// One cell on its seats.
ghost use Rattle.std.specs.Prelude.{◌≡◌};
ghost use Rattle.matrix.specs.Matrix.{Matrix};
ghost use Rattle.seating.specs.Seats.{seated};

use crate::seating::Seating;
use flat::calls::peek;

// The cell on the seats of row r and column c, absent outside.
pub fn seated_at<T: Copy>(s: &[T], seats: &Seating, r: usize, c: usize) -> Option<T>
    ensures answer { result ≡ (seated seats.now s.now).cell r c }
{
    peek(s, seats.place(s.len(), r, c)?)
}
