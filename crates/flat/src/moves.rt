// Moves of a stretch of flat cells.
ghost use Rattle.std.specs.Prelude.{◌≡◌, ℕ, ◌+◌, ◌<◌, ◌≤◌, length, slice_set};
ghost use Rattle.flat.specs.Moves.{Copied, Parted, Exchanged, Reversed, Facing, Filled};

use matrix::limits::SIDE;

// How many cells a long move takes at a time, where as many are there.
const BULK: usize = 4096;

const LARGE: usize = 16384;

// Moves n cells within s; the two stretches may overlap.
// kept: `from` and `to` are places in one slice, since two slices lent from it could not overlap
pub(crate) fn slide<T: Copy>(s: &mut [T], from: usize, to: usize, n: usize)
    requires from { from + n ≤ length s.old }
    requires to { to + n ≤ length s.old }
    ensures effect { Copied s.old s.new s.old from to n }
{
    // kept: an array of any kind of cell is known to fit into memory only where as many cells are there
    if LARGE <= s.len() {
        stride::<T, LARGE>(s, from, to, n);
    } else if BULK <= s.len() {
        stride::<T, BULK>(s, from, to, n);
    } else if SIDE <= s.len() {
        stride::<T, SIDE>(s, from, to, n);
    } else {
        s.copy_within(from..from + n, to);
    }
}

// The same for the cells of one line.
pub(crate) fn shift<T: Copy>(s: &mut [T], from: usize, to: usize, n: usize)
    requires short { n ≤ 256 }
    requires from { from + n ≤ length s.old }
    requires to { to + n ≤ length s.old }
    ensures effect { Copied s.old s.new s.old from to n }
{
    if SIDE <= s.len() {
        pass::<T, SIDE>(s, from, to, n);
    } else {
        slide(s, from, to, n);
    }
}

// The same, N cells at a time: a move down takes the first ones first, a move up the last.
fn stride<T: Copy, const N: usize>(s: &mut [T], from: usize, to: usize, n: usize)
    requires some { 0 < N }
    requires long { N ≤ length s.old }
    requires from { from + n ≤ length s.old }
    requires to { to + n ≤ length s.old }
    ensures effect { Copied s.old s.new s.old from to n }
{
    let mut done = 0;
    while done < n {
        let some = N.min(n - done);
        let at = ahead(from, to, done, n - done - some);
        pass::<T, N>(s, from + at, to + at, some);
        done += some;
    }
}

// Where the next cells of a move stand: after the `done` that have moved down, or before those that have moved up.
fn ahead(from: usize, to: usize, done: usize, left: usize) -> usize
    ensures down { to < from → result ≡ done }
    ensures up { from ≤ to → result ≡ left }
{
    if to < from { done } else { left }
}

// Moves at most N cells within s, by way of an array: the compiler makes one wide move of two plain copies and drops the array,
// where a walk over one slice goes by cells.
fn pass<T: Copy, const N: usize>(s: &mut [T], from: usize, to: usize, n: usize)
    requires long { N ≤ length s.old }
    requires short { n ≤ N }
    requires from { from + n ≤ length s.old }
    requires to { to + n ≤ length s.old }
    ensures effect { Copied s.old s.new s.old from to n }
{
    // kept: only where it knows that there are cells does the compiler take the two copies together, for cells of any size
    if 0 < n {
        let mut wait = [s[0]; N];
        wait[..n].copy_from_slice(&s[from..from + n]);
        s[to..to + n].copy_from_slice(&wait[..n]);
    }
}

// Copies the cells of src into s.
pub(crate) fn copy<T: Copy>(s: &mut [T], to: usize, src: &[T])
    requires room { to + length src.now ≤ length s.old }
    ensures effect { Copied s.old s.new src.now 0 to (length src.now) }
{
    s[to..to + src.len()].copy_from_slice(src);
}

// Writes x at k.
pub(crate) fn write<T: Copy>(s: &mut [T], k: usize, x: T)
    requires inside { k < length s.old }
    ensures effect { s.new ≡ slice_set s.old k x }
{
    s[k] = x;
}

// Writes x into the n cells at p.
pub(crate) fn fill_part<T: Copy>(s: &mut [T], p: usize, n: usize, x: T)
    requires room { p + n ≤ length s.old }
    ensures effect { Filled s.old s.new p n x }
{
    s[p..p + n].fill_with(|| x);
}

// Exchanges the n cells at p with those at q, further on.
pub(crate) fn exchange<T: Copy>(s: &mut [T], p: usize, q: usize, n: usize)
    requires apart { p + n ≤ q }
    requires room { q + n ≤ length s.old }
    ensures effect { Exchanged s.old s.new p q n }
{
    let (front, back) = s.split_at_mut(q);
    front[p..p + n].swap_with_slice(&mut back[..n]);
}

// Turns round the n cells at p.
// kept: eight at a time from either end: std's `reverse` takes twice as long for sixteen bytes, and a third longer for 64 cells of
// eight bytes; sixteen at a time are slow where a line is short
pub(crate) fn reverse<T: Copy>(s: &mut [T], p: usize, n: usize)
    requires room { p + n ≤ length s.old }
    ensures effect { Reversed s.old s.new p n }
{
    let blocks = n / 16;
    for k in 0..blocks {
        face::<T, 8>(s, p + k * 8, p + n - (k + 1) * 8);
    }
    for k in blocks * 8..n / 2 {
        face::<T, 1>(s, p + k, p + n - (k + 1));
    }
}

// The N cells at p and those at q, further on, change places, the first with the last.
// kept: by way of two arrays, so that all are read before one is written: only then does the compiler make wide moves of the loops
fn face<T: Copy, const N: usize>(s: &mut [T], p: usize, q: usize)
    requires some { 0 < N }
    requires apart { p + N ≤ q }
    requires room { q + N ≤ length s.old }
    ensures effect { Facing s.old s.new p q N }
{
    let mut first = [s[p]; N];
    let mut second = [s[q]; N];
    for k in 0..N {
        first[k] = s[p + k];
        second[k] = s[q + k];
    }
    for k in 0..N {
        s[p + k] = second[N - 1 - k];
    }
    for k in 0..N {
        s[q + k] = first[N - 1 - k];
    }
}

// Moves the n cells at `from` up to `to`, g places apart at `at`, where x goes.
pub(crate) fn part<T: Copy>(
    s: &mut [T],
    from: usize,
    to: usize,
    n: usize,
    at: usize,
    g: usize,
    x: T,
)
    requires up { from ≤ to }
    requires at { at ≤ n }
    requires room { to + n + g ≤ length s.old }
    ensures effect { Parted s.old s.new from to n at g x }
{
    slide(s, from + at, to + at + g, n - at);
    slide(s, from, to, at);
    fill_part(s, to + at, g, x);
}
