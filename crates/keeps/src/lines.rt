// Lines that go onto a keep and come off it.
// kept: `ordered` is a premise, since by the rules a keep may be out of order, and what it does then is not promised.
ghost use Rattle.std.specs.Prelude.{◌≡◌, ◌-◌, ◌++◌, length, take, drop, reverse};
ghost use Rattle.keeps.specs.Kept.{Store, holding};

use crate::keep::Keep;

// Pushes the cells of the line, from first to last, as far as there is room: all of them where all fit.
pub fn push_line<K: Keep>(keep: &mut K, line: &[K::Cell])
    ensures effect { let k = K.store keep.old in K.ordered keep.old → K.store keep.new ≡ holding (k.cells ++ take (k.most - length k.cells) line.now) k }
    ensures ordered { K.ordered keep.old → K.ordered keep.new }
    ensures limit { (K.store keep.new).most ≡ (K.store keep.old).most }
{
    for x in line {
        let _ = keep.push(*x);
    }
}

// Takes the newest cells off into memory, the newest of all last. Where the keep has fewer cells than the memory, all of them
// come last, and before them the rest of the memory, backwards.
pub fn pull_line<K: Keep>(keep: &mut K, memory: &mut [K::Cell])
    ensures effect { let k = K.store keep.old in K.ordered keep.old → K.store keep.new ≡ holding (take (length k.cells - length memory.old) k.cells) k }
    ensures ordered { K.ordered keep.old → K.ordered keep.new }
    ensures limit { (K.store keep.new).most ≡ (K.store keep.old).most }
    ensures memory { let xs = (K.store keep.old).cells in K.ordered keep.old → memory.new ≡ reverse (drop (length xs) memory.old) ++ drop (length xs - length memory.old) xs }
{
    for place in memory.iter_mut() {
        if let Some(x) = keep.take() {
            *place = x;
        }
    }
    memory.reverse();
}
