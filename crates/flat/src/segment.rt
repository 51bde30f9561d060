// Part of a slice, by numbers that need not fit it.
ghost use Rattle.std.specs.Prelude.{◌≡◌, ◌+◌, ◌-◌, min};
ghost use Rattle.flat.specs.Segments.{part};

use std::ops::Range;

// The cells from `start` on, `len` of them at most.
#[derive(Clone, Copy, Debug, PartialEq, Eq)]
pub struct Segment {
    pub start: usize,
    pub len: usize,
}

impl Segment {
    // The cells of it that there are.
    pub fn of<T>(self, all: &[T]) -> &[T]
        ensures answer { result.now ≡ part all.now self }
    {
        &all[self.within(all.len())]
    }

    // Where they lie, of `total` cells.
    pub fn within(self, total: usize) -> Range<usize>
        ensures start { result.start ≡ min self.start total }
        ensures end { result.end ≡ result.start + min self.len (total - result.start) }
    {
        let start = self.start.min(total);
        start..start + self.len.min(total - start)
    }
}
