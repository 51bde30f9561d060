// Two keeps as one: the first is filled before the second.
ghost use Rattle.std.specs.Prelude.{◌≡◌, ◌+◌, []};
ghost use Rattle.matrix.specs.Rules.{cell_limit};
ghost use Rattle.std.proofs.Math.Nat.{min-le_right};
ghost use Rattle.matrix.proofs.Stores.{joined_within};
ghost use Rattle.keeps.specs.Kept.{holding};
ghost use Rattle.keeps.specs.Joined.{joined, Filled};

use crate::keep::{Keep, emptied};
use cells::refusal::Refusal;
use matrix::limits::CELLS;

// M is the sum of both, or 65,536 if less. It is in order when its parts are, its second has cells only while its first is
// full, and it has at most M.
// kept: no ghost fields; the last two could stand there, and the order of its parts would still be a premise of each call.
#[derive(Drop)]
pub struct JoinedKeep<A, B> {
    first: A,
    second: B,
}

impl<A: Keep, B: Keep<Cell = A::Cell>> JoinedKeep<A, B> {
    // Joining empties both.
    pub fn new(first: A, second: B) -> JoinedKeep<A, B>
        ensures first { A.Keep.store result.first ≡ holding [] (A.Keep.store first) }
        ensures second { B.Keep.store result.second ≡ holding [] (B.Keep.store second) }
        ensures ordered { A.Keep.ordered result.first × B.Keep.ordered result.second }
    {
        JoinedKeep {
            first: emptied(first),
            second: emptied(second),
        }
    }
}

impl<A: Keep, B: Keep<Cell = A::Cell>> Keep for JoinedKeep<A, B> {
    type Cell = A::Cell;

    ghost store = { λ k. joined (A.Keep.store k.first) (B.Keep.store k.second) };

    ghost ordered = { λ k. A.Keep.ordered k.first × B.Keep.ordered k.second × Filled (A.Keep.store k.first) (B.Keep.store k.second) };

    ghost small = { λ k. record { most = min-le_right ((A.Keep.store k.first).most + (B.Keep.store k.second).most) cell_limit } };

    ghost within = { λ k o. record { cells = joined_within (A.Keep.store k.first).cells (B.Keep.store k.second).cells (joined (A.Keep.store k.first) (B.Keep.store k.second)).most o.2.fits } };

    fn limit(&self) -> usize {
        self.first
            .limit()
            .saturating_add(self.second.limit())
            .min(CELLS)
    }

    fn count(&self) -> usize {
        self.first.count().saturating_add(self.second.count())
    }

    fn push(&mut self, x: A::Cell) -> Result<(), Refusal> {
        if self.limit() <= self.count() {
            return Err(Refusal::Keep);
        }
        if self.first.count() < self.first.limit() {
            return self.first.push(x);
        }
        self.second.push(x)
    }

    #[tactic(auto, using(crate::proofs::Newest::newest_append, crate::proofs::Newest::older_append, crate::proofs::Newest::older_length))]
    fn take(&mut self) -> Option<A::Cell> {
        if 0 < self.second.count() {
            return self.second.take();
        }
        self.first.take()
    }

    fn clear(&mut self) {
        self.first.clear();
        self.second.clear();
    }
}
