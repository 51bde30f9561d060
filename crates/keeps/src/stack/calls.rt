// A stack over lent memory is a keep.
ghost use Rattle.std.specs.Prelude.{◌≡◌, ℕ, ◌≤◌, min, [], length};
ghost use Rattle.matrix.specs.Rules.{cell_limit};
ghost use Rattle.std.proofs.Math.Nat.{min-le_right};
ghost use Rattle.matrix.proofs.Stores.{taken_within};
ghost use Rattle.cells.specs.Refusals.{answered};
ghost use Rattle.keeps.specs.Kept.{holding, push_answer, pushed, newest, taken};
ghost use Rattle.keeps.specs.Stacks.{used, stacked};

use crate::keep::Keep;
use crate::stack::StackKeep;
use cells::refusal::Refusal;
use matrix::limits::CELLS;

impl<'a, T: Copy> StackKeep<'a, T> {
    // An empty stack over the memory.
    pub fn new(cells: &'a mut [T]) -> StackKeep<'a, T>
        ensures effect { stacked result ≡ record { cells = []; most = min (length cells.entry.now) cell_limit } }
        ensures cells { result.cells.now ≡ cells.old }
        ensures memory { result.cells.ghost_name ≡ cells.entry.ghost_name }
    {
        StackKeep { cells, used: 0 }
    }

    // How many cells are on it.
    fn used_now(&self) -> usize
        ensures answer { result ≡ used (length self.now.cells.now) self.now.used }
        ensures few { result ≤ min (length self.now.cells.now) cell_limit }
    {
        if self.used <= self.limit() {
            self.used
        } else {
            0
        }
    }
}

impl<'a, T: Copy> Keep for StackKeep<'a, T> {
    type Cell = T;

    ghost store = { λ k. stacked k };

    // A stack is always in order.
    ghost ordered = { λ _. Unit {0} };

    ghost small = { λ k. record { most = min-le_right (length k.cells.now) cell_limit } };

    ghost within = { λ k _. record { cells = taken_within k.cells.now k.used cell_limit } };

    fn limit(&self) -> usize {
        self.cells.len().min(CELLS)
    }

    fn count(&self) -> usize {
        self.used_now()
    }

    fn push(&mut self, x: T) -> Result<(), Refusal>
        ensures answer { result ≡ push_answer (stacked self.old) }
        ensures effect { stacked self.new ≡ answered result (pushed x (stacked self.old)) (stacked self.old) }
        ensures limit { (stacked self.new).most ≡ (stacked self.old).most }
        ensures memory { self.new.cells.ghost_name ≡ self.old.cells.ghost_name }
    {
        let n = self.used_now();
        if self.limit() <= n {
            return Err(Refusal::Keep);
        }
        self.cells[n] = x;
        self.used = n + 1;
        Ok(())
    }

    fn take(&mut self) -> Option<T>
        ensures answer { result ≡ newest (stacked self.old).cells }
        ensures effect { stacked self.new ≡ taken (stacked self.old) }
        ensures limit { (stacked self.new).most ≡ (stacked self.old).most }
        ensures memory { self.new.cells.ghost_name ≡ self.old.cells.ghost_name }
    {
        let n = self.used_now().checked_sub(1)?;
        self.used = n;
        Some(self.cells[n])
    }

    fn clear(&mut self)
        ensures effect { stacked self.new ≡ holding [] (stacked self.old) }
        ensures memory { self.new.cells.ghost_name ≡ self.old.cells.ghost_name }
    {
        self.used = 0;
    }
}
