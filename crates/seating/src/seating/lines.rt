// Lines of cells that go onto seats, and come off them.
ghost use Rattle.std.specs.Prelude.{◌≡◌, ◌*◌, ◌<◌, ◌≤◌, length};
ghost use Rattle.matrix.specs.Axes.{other, line_of};
ghost use Rattle.matrix.specs.Matrix.{Matrix, over};
ghost use Rattle.seating.specs.Seats.{seen, bench_of};
ghost use Rattle.seating.specs.Lines.{Written, line_spots};

use crate::seating::Seating;
use matrix::axis::Axis;

// Writes the line onto the seats of line i along the axis.
pub(crate) fn write_line<T: Copy>(s: &mut [T], seats: &Seating, axis: Axis, i: usize, line: &[T])
    requires at { i < seats.now.down.side }
    requires wide { length line.now ≤ seats.now.down.side }
    requires room { seats.now.down.side * seats.now.down.side ≤ length s.old }
    ensures effect { Written (line_spots axis i seats.now) line.now (length line.now) s.old s.new }
{
    for (c, x) in line.iter().enumerate() {
        s[seats.spot_along(axis, i, c)] = *x;
    }
}

// The cells of line i along the axis, copied into the memory's first cells.
pub(crate) fn copy_line<T: Copy>(s: &[T], seats: &Seating, axis: Axis, i: usize, memory: &mut [T])
    requires at { i < (bench_of axis seats.now).count }
    requires long { (bench_of (other axis) seats.now).count ≤ length memory.old }
    requires room { seats.now.down.side * seats.now.down.side ≤ length s.now }
    ensures line { memory.new ≡ over (line_of axis i (seen seats.now s.now)) memory.old }
{
    let (_, across) = seats.lines(s.len(), axis);
    for (c, x) in memory[..across].iter_mut().enumerate() {
        *x = s[seats.spot_along(axis, i, c)];
    }
}
