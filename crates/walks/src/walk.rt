// What a walk is, and how one is read into memory.
ghost use Rattle.std.specs.Prelude.{◌≡◌, ℕ, ◌+◌, List, length, take, drop, min};
ghost use Rattle.std.specs.List.{slice_get};
ghost use Rattle.matrix.specs.Matrix.{over};
ghost use Rattle.grid.specs.declared.grid.Grid.{Grid};

use grid::grid::Grid;

// A walk goes over cells or lines, one at a step. It holds no grid and is lent one at each step, be it the one that it was made of,
// as it was or changed, or another. Its meaning is the list of what is still to come of a grid, and where it stands some places on.
pub trait Walk<T: Copy> {
    type Item: Copy;

    ghost ahead: { Self → Grid T → List Self.Item };

    ghost moved: { ℕ → Self → Self };

    // The next item, and the walk moves on; absent where nothing is still to come of this grid, and then the walk stays.
    fn next(&mut self, grid: &Grid<'_, T>) -> Option<Self::Item>
        ensures answer { result ≡ slice_get (ahead self.old grid.now) 0 }
        ensures effect { self.new ≡ moved (min 1 (length (ahead self.old grid.now))) self.old }
        ensures rest { ahead self.new grid.now ≡ drop 1 (ahead self.old grid.now) };

    // No place on, and some places on after others.
    ghost still: { (w : Self) → moved 0 w ≡ w };

    ghost further: { (w : Self) (j k : ℕ) → moved k (moved j w) ≡ moved (j + k) w };
}

// Steps into the memory until that is full or nothing more comes; how many items came.
pub fn read<T: Copy, W: Walk<T>>(walk: &mut W, grid: &Grid<'_, T>, memory: &mut [W::Item]) -> usize
    ensures answer { result ≡ min (length memory.old) (length (W.ahead walk.old grid.now)) }
    ensures effect { walk.new ≡ W.moved result walk.old }
    ensures line { memory.new ≡ over (take (length memory.old) (W.ahead walk.old grid.now)) memory.old }
    ensures rest { W.ahead walk.new grid.now ≡ drop (length memory.old) (W.ahead walk.old grid.now) }
{
    for (k, place) in memory.iter_mut().enumerate() {
        match walk.next(grid) {
            Some(item) => *place = item,
            None => return k,
        }
    }
    memory.len()
}
