// Which refusal a line meets, and what a line that goes leaves: what every board checks, on numbers alone.
ghost use Rattle.std.specs.Prelude.{◌≡◌};
ghost use Rattle.matrix.specs.Matrix.{left_across};
ghost use Rattle.matrix.specs.Rules.{insert_answer, more_answer, remove_answer};

use crate::limits::Limits;
use cells::refusal::Refusal;

// A line of n cells goes in at i, where `count` lines of `across` cells stand. No number overflows: FULL is found by a
// quotient.
pub fn insert_check(
    limits: Limits,
    i: usize,
    n: usize,
    count: usize,
    across: usize,
) -> Result<(), Refusal>
    ensures answer { result ≡ insert_answer limits i n count across }
{
    if n == 0 {
        return Err(Refusal::Empty);
    }
    if count != 0 && n != across {
        return Err(Refusal::Length);
    }
    if count < i {
        return Err(Refusal::Place);
    }
    if limits.side <= count || limits.side < n {
        return Err(Refusal::Side);
    }
    if limits.most / n <= count {
        return Err(Refusal::Full);
    }
    Ok(())
}

// n lines of one cell are added to `count` lines of `across` cells.
pub fn more_check(limits: Limits, n: usize, count: usize, across: usize) -> Result<(), Refusal>
    ensures answer { result ≡ more_answer limits n count across }
{
    if n == 0 || across == 0 {
        return Ok(());
    }
    if limits.side < count || limits.side - count < n {
        return Err(Refusal::Side);
    }
    if limits.most / across < count + n {
        return Err(Refusal::Full);
    }
    Ok(())
}

// Line i of `count` goes out into n cells of memory.
pub fn remove_check(i: usize, n: usize, count: usize, across: usize) -> Result<(), Refusal>
    ensures answer { result ≡ remove_answer i n count across }
{
    if count <= i {
        return Err(Refusal::Place);
    }
    if n < across {
        return Err(Refusal::Short);
    }
    Ok(())
}

// How long the lines across are when one of `lines` has gone: a board without lines has none across.
pub fn left_across(lines: usize, across: usize) -> usize
    ensures answer { result ≡ left_across lines across }
{
    if lines == 1 { 0 } else { across }
}
