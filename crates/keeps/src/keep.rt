// What a keep is: a list of cells and a limit behind an interface.
ghost use Rattle.std.specs.Prelude.{◌≡◌, [], length};
ghost use Rattle.cells.specs.Refusals.{answered};
ghost use Rattle.keeps.specs.Kept.{Store, Small, Within, holding, push_answer, pushed, newest, taken};

use cells::refusal::Refusal;

// A keep means a list of cells and a limit M of at most 65,536, which never changes. It may be in order or not: emptying
// leaves any keep in order, calls leave it so, and the rules of the other calls are promised in order only.
// kept: `ordered` is a premise, since by the rules a keep may be out of order; as an invariant it would shut such keeps out.
pub trait Keep {
    type Cell: Copy;

    ghost store: { Self → Store Self.Cell };

    ghost ordered: { Self → Type 0 };

    fn limit(&self) -> usize
        ensures answer { result ≡ (store self.now).most };

    fn count(&self) -> usize
        ensures answer { ordered self.now → result ≡ length (store self.now).cells };

    fn push(&mut self, x: Self::Cell) -> Result<(), Refusal>
        ensures answer { ordered self.old → result ≡ push_answer (store self.old) }
        ensures effect { ordered self.old → store self.new ≡ answered result (pushed x (store self.old)) (store self.old) }
        ensures ordered { ordered self.old → ordered self.new }
        ensures limit { (store self.new).most ≡ (store self.old).most };

    fn take(&mut self) -> Option<Self::Cell>
        ensures answer { ordered self.old → result ≡ newest (store self.old).cells }
        ensures effect { ordered self.old → store self.new ≡ taken (store self.old) }
        ensures ordered { ordered self.old → ordered self.new }
        ensures limit { (store self.new).most ≡ (store self.old).most };

    fn clear(&mut self)
        ensures effect { store self.new ≡ holding [] (store self.old) }
        ensures ordered { ordered self.new };

    // What every keep owes, and what it owes in order.
    ghost small: { (k : Self) → Small (store k) };

    ghost within: { (k : Self) → ordered k → Within (store k) };
}

// The keep without a cell, and in order.
pub fn emptied<K: Keep>(mut keep: K) -> K
    ensures effect { K.store result ≡ holding [] (K.store keep) }
    ensures ordered { K.ordered result }
{
    keep.clear();
    keep
}
