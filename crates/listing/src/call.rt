// What a line of a scorer's list asks for.
ghost use Rattle.std.specs.Prelude.{◌≡◌, [], Ok, None};
ghost use Rattle.std.specs.Option.{option_map};
ghost use Rattle.matrix.specs.Words.{Named};
ghost use Rattle.listing.specs.Spellings.{Read};
ghost use Rattle.listing.specs.Calls.{Reads, SaysAlone, SaysPlace, SaysPut, SaysInsertion, SaysRemoval, SaysCall, SaysRoom, SaysSheet, SaysKeep, SaysGround, Turned, Other, kind_word, texts};

use crate::digits::number;
use crate::name::Name;
use crate::wrong::Wrong;
use matrix::axis::Axis;
use matrix::limits::SIDE;
use matrix::shape::Order;
use std::str::FromStr;

// The two kinds of sheet.
#[derive(Clone, Copy, PartialEq, Eq)]
pub enum SheetKind {
    Passages,
    Penalties,
}

// A word that is no kind of sheet.
#[derive(Clone, Copy, PartialEq, Eq)]
pub struct NoKind;

impl FromStr for SheetKind {
    type Err = NoKind;

    ghost from_str_gives = { Named kind_word };

    fn from_str(word: &str) -> Result<SheetKind, NoKind> {
        match word {
            "passages" => Ok(SheetKind::Passages),
            "penalties" => Ok(SheetKind::Penalties),
            _ => Err(NoKind),
        }
    }
}

// What lies under a sheet, before it is turned.
#[derive(Clone, Copy, PartialEq, Eq)]
pub enum Ground {
    // An empty grid over that many cells of memory.
    Grid(Order, usize),
    // A board of that many seats to a side.
    Seats(usize),
}

// A ground, turned that many times.
#[derive(Clone, Copy, PartialEq, Eq)]
pub struct Layout {
    pub turns: usize,
    pub ground: Ground,
}

// The memory in which a sheet keeps what it needs to step back.
#[derive(Clone, Copy, PartialEq, Eq)]
pub enum Keeping {
    Stack(usize),
    Joined(usize, usize),
}

// A sheet that is to be made: its kind, the board under it, and its keep.
#[derive(Clone, Copy, PartialEq, Eq)]
pub struct Fresh {
    pub kind: SheetKind,
    pub layout: Layout,
    pub keeping: Keeping,
}

// One call. Cells are still words of the line, since the sheet's kind says what they mean.
#[derive(Clone, Copy)]
pub enum Call<'a> {
    New(Fresh),
    Start(&'a [&'a str]),
    Put(usize, usize, &'a str),
    Insert(Axis, usize, &'a [&'a str]),
    // The last is how many cells of memory there are for the line.
    Remove(Axis, usize, usize),
    Transpose,
    Flip(Axis),
    StepBack(usize),
    Publish,
    Reopen,
    Size,
    Get(usize, usize),
    Owed,
    Kept,
    Settled,
    Show,
    Tally,
}

impl<'a> Call<'a> {
    // The call that the words of a line are, and none where there is no word.
    pub fn read(words: &'a [&'a str]) -> Result<Option<Call<'a>>, Wrong>
        ensures read { Reads (texts words.now) result }
        ensures empty { texts words.now ≡ [] → result ≡ Ok None }
    {
        let [word, rest @ ..] = words else {
            return Ok(None);
        };
        let name: Name = word.parse().map_err(|_| Wrong::NoName)?;
        let call = named(name, rest).ok_or(Wrong::Usage(name))?;
        Ok(Some(call))
    }
}

// The call of a name and the words after it.
fn named<'a>(name: Name, words: &'a [&'a str]) -> Option<Call<'a>>
    ensures call { Read (SaysCall name) (texts words.now) result }
{
    match name {
        Name::New => Some(Call::New(sheet(words)?)),
        Name::Start => Some(Call::Start(words)),
        Name::Put => {
            let (r, c, cell) = put(words)?;
            Some(Call::Put(r, c, cell))
        }
        Name::Insert(axis) => {
            let (i, cells) = insertion(words)?;
            Some(Call::Insert(axis, i, cells))
        }
        Name::Remove(axis) => {
            let (i, room) = removal(words)?;
            Some(Call::Remove(axis, i, room))
        }
        Name::Transpose => alone(Call::Transpose, words),
        Name::Flip(axis) => alone(Call::Flip(axis), words),
        Name::StepBack => Some(Call::StepBack(room_of(words)?)),
        Name::Publish => alone(Call::Publish, words),
        Name::Reopen => alone(Call::Reopen, words),
        Name::Size => alone(Call::Size, words),
        Name::Get => {
            let (r, c) = place(words)?;
            Some(Call::Get(r, c))
        }
        Name::Owed => alone(Call::Owed, words),
        Name::Kept => alone(Call::Kept, words),
        Name::Settled => alone(Call::Settled, words),
        Name::Show => alone(Call::Show, words),
        Name::Tally => alone(Call::Tally, words),
    }
}

// A call that is its name alone.
fn alone<'a>(call: Call<'a>, words: &[&str]) -> Option<Call<'a>>
    ensures alone { Read (SaysAlone call.entry) (texts words.now) result }
{
    match words {
        [] => Some(call),
        _ => None,
    }
}

fn place(words: &[&str]) -> Option<(usize, usize)>
    ensures place { Read SaysPlace (texts words.now) result }
{
    match words {
        [r, c] => Some((number(r)?, number(c)?)),
        _ => None,
    }
}

fn put<'a>(words: &'a [&'a str]) -> Option<(usize, usize, &'a str)>
    ensures put { Read SaysPut (texts words.now) result }
{
    match words {
        [r, c, cell] => Some((number(r)?, number(c)?, cell)),
        _ => None,
    }
}

fn insertion<'a>(words: &'a [&'a str]) -> Option<(usize, &'a [&'a str])>
    ensures insertion { Read SaysInsertion (texts words.now) result }
{
    match words {
        [i, cells @ ..] => Some((number(i)?, cells)),
        _ => None,
    }
}

fn removal(words: &[&str]) -> Option<(usize, usize)>
    ensures removal { Read SaysRemoval (texts words.now) result }
{
    match words {
        [i, room @ ..] => Some((number(i)?, room_of(room)?)),
        _ => None,
    }
}

// How many cells of memory there are for a line: as many as the longest has, where its call does not say.
fn room_of(words: &[&str]) -> Option<usize>
    ensures room { Read SaysRoom (texts words.now) result }
{
    match words {
        [] => Some(SIDE),
        [room] => number(room),
        _ => None,
    }
}

fn sheet(words: &[&str]) -> Option<Fresh>
    ensures sheet { Read SaysSheet (texts words.now) result }
{
    let [kind, words @ ..] = words else {
        return None;
    };
    let kind: SheetKind = kind.parse().ok()?;
    let (turns, words) = read_turns(words);
    let (ground, words) = read_ground(words)?;
    let keeping = read_keep(words)?;
    let layout = Layout { turns, ground };
    Some(Fresh {
        kind,
        layout,
        keeping,
    })
}

// How many words `turned` come first, and the words after them.
fn read_turns<'a>(words: &'a [&'a str]) -> (usize, &'a [&'a str])
    ensures turned { Turned result.0 (texts words.now) (texts result.1.now) }
    ensures all { Other (texts result.1.now) }
{
    let mut turns = 0;
    let mut rest = words;
    while let ["turned", more @ ..] = rest {
        turns += 1;
        rest = more;
    }
    (turns, rest)
}

// The ground that the first words name, and the words after them.
fn read_ground<'a>(words: &'a [&'a str]) -> Option<(Ground, &'a [&'a str])>
    ensures ground { Read SaysGround (texts words.now) (option_map (λ p. (p.0, texts p.1.now)) result) }
{
    match words {
        ["seats", side, rest @ ..] => Some((Ground::Seats(number(side)?), rest)),
        ["grid", order, cells, rest @ ..] => {
            let order: Order = order.parse().ok()?;
            Some((Ground::Grid(order, number(cells)?), rest))
        }
        _ => None,
    }
}

fn read_keep(words: &[&str]) -> Option<Keeping>
    ensures keep { Read SaysKeep (texts words.now) result }
{
    match words {
        ["stack", most] => Some(Keeping::Stack(number(most)?)),
        ["joined", first, second] => Some(Keeping::Joined(number(first)?, number(second)?)),
        _ => None,
    }
}
