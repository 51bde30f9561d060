// The numbers of a list.
ghost use Rattle.listing.specs.Spellings.{Read, Number};

// The number that decimal digits write, and nothing else does.
// kept: a `FromStr` would need a struct round the number, which each caller would take off again
pub fn number(word: &str) -> Option<usize>
    ensures digits { Read (Number 64) word.now result }
{
    match word.as_bytes() {
        [b'+', ..] => None,
        _ => word.parse::<usize>().ok(),
    }
}
