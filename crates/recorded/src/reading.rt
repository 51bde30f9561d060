// Reading a line, word by word. A number that is left out is 0, and one too many is passed over.
use crate::entry::{After, Answer, Call, Cell, Entry, Making, Panicked, Step};
use crate::name::{Name, Said};
use matrix::shape::Order;
use std::alloc::{AllocError, Global};
use walks::lines::End;

// The parts of a line, as they follow one another.
#[derive(Clone, Copy)]
enum Part {
    Head,
    Line,
    Answer,
    After,
    Flat,
}

impl Part {
    // The part that a mark begins, after this one.
    fn marked(self, word: &str) -> Option<Part> {
        match (word, self) {
            (":", _) => Some(Part::Line),
            ("=>", _) => Some(Part::Answer),
            (";", Part::Answer) => Some(Part::After),
            (";", _) => Some(Part::Flat),
            _ => None,
        }
    }
}

// What the words of a line have said so far.
// kept: numbers in lists until all words are read, since a name, an order and numbers come in any order, and any of them can be
// left out
#[derive(Drop)]
struct Reader {
    name: Name,
    order: Order,
    numbers: Vec<usize>,
    line: Vec<Cell>,
    ends: Vec<End>,
    said: Said,
    told: Vec<Cell>,
    lines: Vec<Option<Vec<Cell>>>,
    after: Order,
    sides: Vec<usize>,
    flat: Vec<Cell>,
}

impl Entry {
    // Reads the line of that number.
    pub fn read(heap: Global, number: usize, text: &str) -> anyhow::Result<Entry> {
        let mut reader = Reader::new(heap);
        let mut part = Part::Head;
        for word in text.split_whitespace() {
            match part.marked(word) {
                Some(next) => part = next,
                None => reader.take(heap, part, word)?,
            }
        }
        Ok(reader.entry(heap, number)?)
    }
}

impl Reader {
    // What is not said is so.
    fn new(heap: Global) -> Reader {
        Reader {
            name: Name::Size,
            order: Order::RowMajor,
            numbers: Vec::new(heap),
            line: Vec::new(heap),
            ends: Vec::new(heap),
            said: Said::Done,
            told: Vec::new(heap),
            lines: Vec::new(heap),
            after: Order::RowMajor,
            sides: Vec::new(heap),
            flat: Vec::new(heap),
        }
    }

    // One word more. Of names and of orders the last counts.
    fn take(&mut self, heap: Global, part: Part, word: &str) -> anyhow::Result<()> {
        match part {
            Part::Head => match (word.parse::<Name>(), word.parse::<Order>()) {
                (Ok(name), _) => self.name = name,
                (Err(_), Ok(order)) => self.order = order,
                (Err(_), Err(_)) if word.chars().all(|x| x == 'f' || x == 'b') => self.take_ends(
                    word,
                )?,
                (Err(_), Err(_)) => self.numbers.push(word.parse::<usize>()?)?,
            },
            Part::Line => self.line.push(Cell(word.parse::<u32>()?))?,
            Part::Answer => match word.parse::<Said>() {
                Ok(said) => self.said = said,
                Err(_) => self.take_told(heap, word)?,
            },
            Part::After => match word.parse::<Order>() {
                Ok(order) => self.after = order,
                Err(_) => self.sides.push(word.parse::<usize>()?)?,
            },
            Part::Flat => self.flat.push(Cell(word.parse::<u32>()?))?,
        }
        Ok(())
    }

    // An end for each letter, f for the front and b for the back.
    fn take_ends(&mut self, word: &str) -> Result<(), AllocError> {
        for letter in word.chars() {
            self.ends.push(match letter {
                'f' => End::Front,
                _ => End::Back,
            })?;
        }
        Ok(())
    }

    // A mark or a cell of lines, or a number of another answer.
    fn take_told(&mut self, heap: Global, word: &str) -> anyhow::Result<()> {
        match (word, self.lines.last_mut()) {
            ("|", _) => self.lines.push(Some(Vec::new(heap)))?,
            ("-", _) => self.lines.push(None)?,
            (_, Some(Some(line))) => line.push(Cell(word.parse::<u32>()?))?,
            (_, _) => self.told.push(Cell(word.parse::<u32>()?))?,
        }
        Ok(())
    }

    // The line, when all its words are read.
    fn entry(self, heap: Global, number: usize) -> Result<Entry, AllocError> {
        let Reader {
            name,
            order,
            numbers,
            line,
            ends,
            said,
            told,
            lines,
            after,
            sides,
            flat,
        } = self;
        Ok(Entry {
            number,
            step: step(name, order, numbers.as_slice(), line, ends),
            answer: answer(heap, said, told, lines)?,
            after: After {
                order: after,
                rows: nth(sides.as_slice(), 0),
                cols: nth(sides.as_slice(), 1),
                flat,
            },
        })
    }
}

// The step of that name. Its numbers are indices or sizes. The cell of `init` and `put` is the third, or 0 where there is none;
// that of `fill` stands alone.
fn step(name: Name, order: Order, numbers: &[usize], line: Vec<Cell>, ends: Vec<End>) -> Step {
    let i = nth(numbers, 0);
    let j = nth(numbers, 1);
    let x = numbered(nth(numbers, 2));
    match name {
        Name::New => Step::Begin(order, Making::New(i, j)),
        Name::Init => Step::Begin(order, Making::Init(i, j, x)),
        Name::FromVec => Step::Begin(order, Making::FromVec(i, line)),
        Name::Insert(axis) => Step::Call(Call::Insert(axis, i, line)),
        Name::Push(axis) => Step::Call(Call::Push(axis, line)),
        Name::Remove(axis) => Step::Call(Call::Remove(axis, i)),
        Name::Pop(axis) => Step::Call(Call::Pop(axis)),
        Name::Delete(axis) => Step::Call(Call::Delete(axis, i)),
        Name::Expand(axis) => Step::Call(Call::Expand(axis, i)),
        Name::Prepend(axis) => Step::Call(Call::Prepend(axis, i)),
        Name::Flip(axis) => Step::Call(Call::Flip(axis)),
        Name::Transpose => Step::Call(Call::Transpose),
        Name::RotateLeft => Step::Call(Call::RotateLeft),
        Name::RotateRight => Step::Call(Call::RotateRight),
        Name::RotateHalf => Step::Call(Call::RotateHalf),
        Name::Put => Step::Call(Call::Put(i, j, x)),
        Name::Swap => Step::Call(Call::Swap((i, j), (nth(numbers, 2), nth(numbers, 3)))),
        Name::Fill => Step::Call(Call::Fill(numbered(i))),
        Name::Clear => Step::Call(Call::Clear),
        Name::Get => Step::Call(Call::Get(i, j)),
        Name::Same => Step::Call(Call::Same(order, i, line)),
        Name::IsEmpty => Step::Call(Call::IsEmpty),
        Name::Size => Step::Call(Call::Size),
        Name::Iter(axis) => Step::Call(Call::Iter(axis, i)),
        Name::IterLines(axis) => Step::Call(Call::IterLines(axis, ends)),
        Name::IndexedIter => Step::Call(Call::IndexedIter),
        Name::MapRef => Step::Call(Call::MapRef),
    }
}

// The answer of that word and those numbers. A cell is one number, a size is two, and a place with its cell three.
fn answer(
    heap: Global,
    said: Said,
    told: Vec<Cell>,
    lines: Vec<Option<Vec<Cell>>>,
) -> Result<Answer, AllocError> {
    Ok(match (said, told.as_slice()) {
        (Said::Done, _) => Answer::Done(Ok(())),
        (Said::Panic, _) => Answer::Done(Err(Panicked)),
        (Said::Nothing, _) => Answer::Line(None),
        (Said::Line, _) => Answer::Line(Some(told)),
        (Said::Absent, _) => Answer::Cell(None),
        (Said::Cell, [x]) => Answer::Cell(Some(*x)),
        (Said::True, _) => Answer::Said(true),
        (Said::False, _) => Answer::Said(false),
        (Said::Size, [rows, cols]) => Answer::Size(rows.0 as usize, cols.0 as usize),
        (Said::Lines, []) => Answer::Lines(lines),
        (Said::Places, numbers) => places(heap, numbers)?,
        (Said::Cell | Said::Size | Said::Lines, _) => Answer::Garbled,
    })
}

// Places with their cells: row, column and cell of each.
fn places(heap: Global, numbers: &[Cell]) -> Result<Answer, AllocError> {
    let mut all = Vec::new(heap);
    for item in numbers.chunks(3) {
        let [r, c, x] = item else {
            return Ok(Answer::Garbled);
        };
        all.push(((r.0 as usize, c.0 as usize), *x))?;
    }
    Ok(Answer::Places(all))
}

// A cell of that number, and 0 where it is none.
fn numbered(number: usize) -> Cell {
    Cell(u32::try_from(number).unwrap_or(0))
}

// The number at that place, and 0 where there is none.
fn nth(numbers: &[usize], at: usize) -> usize {
    numbers.get(at).copied().unwrap_or(0)
}
