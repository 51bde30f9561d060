// Insertion and removal of lines on memory and a seating.
ghost use Rattle.std.specs.Prelude.{◌≡◌, length};
ghost use Rattle.cells.specs.Refusals.{answered, Kept};
ghost use Rattle.matrix.specs.Matrix.{over};
ghost use Rattle.matrix.specs.Axes.{inserted, removed, line_of, insert_along, remove_along};
ghost use Rattle.seating.specs.Seats.{seated, seated_limits};
ghost use Rattle.seating.specs.Lines.{line_spots, Placed};

use crate::seating::Seating;
use crate::seating::lines::{copy_line, write_line};
use cells::refusal::Refusal;
use matrix::axis::Axis;
use matrix::checks::{insert_check, remove_check};

// kept: memory and seating stand apart, since a struct of both is `SeatBoard`, whose calls come down to these two.
// The line becomes line i along the axis, on a seat that was free.
pub fn insert<T: Copy>(
    s: &mut [T],
    seats: &mut Seating,
    axis: Axis,
    i: usize,
    line: &[T],
) -> Result<(), Refusal>
    ensures answer { result ≡ insert_along (seated_limits seats.old (length s.old)) axis i line.now (seated seats.old s.old) }
    ensures effect { seated seats.new s.new ≡ answered result (inserted axis i line.now (seated seats.old s.old)) (seated seats.old s.old) }
    ensures cells { Placed (λ _. line_spots axis i seats.new) result line.now s.old s.new }
    ensures side { seats.new.down.side ≡ seats.old.down.side }
    ensures kept { Kept result seats.old seats.new }
{
    let (count, across) = seats.lines(s.len(), axis);
    insert_check(seats.limits(s.len()), i, line.len(), count, across)?;
    seats.open(axis, i, line.len());
    write_line(s, seats, axis, i, line);
    Ok(())
}

// kept: `s` is a `&mut`, since a part that a `&mut` struct lends for reading counts as changed.
// Line i along the axis goes into the first cells of the memory, and its seat is free: no cell changes.
pub fn remove<T: Copy>(
    s: &mut [T],
    seats: &mut Seating,
    axis: Axis,
    i: usize,
    memory: &mut [T],
) -> Result<(), Refusal>
    ensures answer { result ≡ remove_along axis i memory.old (seated seats.old s.old) }
    ensures effect { seated seats.new s.new ≡ answered result (removed axis i (seated seats.old s.old)) (seated seats.old s.old) }
    ensures line { memory.new ≡ answered result (over (line_of axis i (seated seats.old s.old)) memory.old) memory.old }
    ensures cells { s.new ≡ s.old }
    ensures side { seats.new.down.side ≡ seats.old.down.side }
    ensures kept { Kept result seats.old seats.new }
{
    let (count, across) = seats.lines(s.len(), axis);
    remove_check(i, memory.len(), count, across)?;
    copy_line(s, seats, axis, i, memory);
    seats.close(axis, i);
    Ok(())
}
