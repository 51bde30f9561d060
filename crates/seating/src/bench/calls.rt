// How a bench seats a line, frees a seat and turns round.
ghost use Rattle.std.specs.Prelude.{◌≡◌, ℕ, ◌+◌, ◌-◌, ◌<◌, ◌≤◌, length, if◌then◌else◌, nat_le, slice_index};
ghost use Rattle.matrix.specs.Matrix.{spliced, skipped};
ghost use Rattle.seating.specs.Benches.{seat, flipped};

use crate::bench::Bench;
use matrix::limits::SIDE;
use std::array::from_fn;

// The entry at n goes to i, and those from i on move up by one.
// kept: i and n are the bounds of one move; a struct of them would be made and read once.
fn shift_in(t: &mut [u16], i: usize, n: usize)
    requires at { i ≤ n }
    requires room { n < length t.old }
    ensures moved { (k : ℕ) → k < n + 1 → slice_index t.new k ≡ spliced i (slice_index t.old n) (λ j. slice_index t.old j) k }
    ensures above { (k : ℕ) → n < k → slice_index t.new k ≡ slice_index t.old k }
{
    t[i..n + 1].rotate_right(1);
}

// The entry at i goes to n, and those after i up to n move down by one.
fn shift_out(t: &mut [u16], i: usize, n: usize)
    requires at { i ≤ n }
    requires room { n < length t.old }
    ensures moved { (k : ℕ) → k < n → slice_index t.new k ≡ slice_index t.old (skipped i k) }
    ensures freed { slice_index t.new n ≡ slice_index t.old i }
    ensures above { (k : ℕ) → n < k → slice_index t.new k ≡ slice_index t.old k }
{
    t[i..n + 1].rotate_left(1);
}

// The first n entries back to front.
fn turn_front(t: &mut [u16], n: usize)
    requires room { n ≤ length t.old }
    ensures effect { t.new ≡ flipped n t.old }
{
    t[..n].reverse();
}

// kept: no Model as a list, since `open` takes the first of the free seats, whose order the list of lines has not.
impl Bench {
    // Line i takes the first free seat; later lines move by one.
    // kept: that the side stays is one equation, and a word for it would be no shorter.
    pub(crate) fn open(&mut self, i: usize)
        requires at { i ≤ self.old.count }
        requires room { self.old.count < self.old.side }
        ensures seats { (k : ℕ) → k < self.old.count + 1 → seat self.new k ≡ spliced i (seat self.old self.old.count) (λ j. seat self.old j) k }
        ensures count { self.new.count ≡ self.old.count + 1 }
        ensures side { self.new.side ≡ self.old.side }
    {
        let n = self.count;
        shift_in(&mut self.table, i, n);
        self.count = n + 1;
    }

    // Line i goes, and its seat is the first that is free.
    pub(crate) fn close(&mut self, i: usize)
        requires at { i < self.old.count }
        ensures seats { (k : ℕ) → k < self.old.count - 1 → seat self.new k ≡ seat self.old (skipped i k) }
        ensures count { self.new.count ≡ self.old.count - 1 }
        ensures side { self.new.side ≡ self.old.side }
    {
        let n = self.count - 1;
        shift_out(&mut self.table, i, n);
        self.count = n;
    }

    // The first n seats are taken.
    pub(crate) fn take(&mut self, n: usize)
        requires room { n ≤ self.old.side }
        ensures seats { self.new.table ≡ self.old.table }
        ensures count { self.new.count ≡ n }
        ensures side { self.new.side ≡ self.old.side }
    {
        self.count = n;
    }

    // The lines end for end, in place.
    pub(crate) fn flip(&mut self)
        ensures seats { self.new.table ≡ flipped self.old.count self.old.table }
        ensures count { self.new.count ≡ self.old.count }
        ensures side { self.new.side ≡ self.old.side }
    {
        let n = self.count;
        turn_front(&mut self.table, n);
    }

    // Every seat free; no seats at all where the side is above 256.
    pub(crate) fn empty(side: usize) -> Bench
        ensures count { result.count ≡ 0 }
        ensures side { result.side ≡ (if nat_le side 256 then side else 0) }
    {
        Bench {
            side: if side <= SIDE { side } else { 0 },
            count: 0,
            table: from_fn(|k| k as u16),
        }
    }
}
