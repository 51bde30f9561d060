// The lines of a list.
ghost use Rattle.std.specs.Prelude.{◌≡◌, IfOk};
ghost use Rattle.std.specs.Str.Lines.{lines};
ghost use Rattle.listing.specs.Calls.{texts};
ghost use Rattle.scoresheet.specs.Lists.{gap, sheet_made, uncommented, words};

use listing::call::{Call, Fresh};
use listing::wrong::Wrong;
use std::alloc::{AllocError, Global};

// A line that has a word: its number in the list, and what it says.
#[derive(Clone, Copy)]
pub struct Line<'a> {
    pub number: usize,
    pub call: Result<Call<'a>, Wrong>,
}

// Where reading stops: how many lines of the list are read, and the sheet that the last of them makes; it makes none only where no
// line is left.
#[derive(Clone, Copy)]
pub struct Stop {
    pub lines: usize,
    pub fresh: Option<Fresh>,
}

// The sheet that a line makes, if it makes one.
pub fn made(call: Result<Call<'_>, Wrong>) -> Option<Fresh>
    ensures answer { result ≡ sheet_made call.entry }
{
    match call {
        Ok(Call::New(fresh)) => Some(fresh),
        _ => None,
    }
}

// The lines of a list.
pub fn split<'a>(heap: Global, text: &'a str) -> Result<Vec<&'a str>, AllocError>
    ensures lines { IfOk result (λ list. texts list.items ≡ lines text.now) }
{
    text.lines().collect(heap)
}

// The words of a line, up to its comment. Spaces and tabs separate them.
// kept: a pass over the bytes that remembers where a word begins, since parting at spaces and then each part at tabs takes 1.6 to 3.6
// times the instructions on words as short as cells
pub fn split_line<'a>(heap: Global, line: &'a str) -> Result<Vec<&'a str>, AllocError>
    ensures words { IfOk result (λ ws. texts ws.items ≡ words line.now) }
{
    let text = without_comment(line);
    let bytes = text.as_bytes();
    let mut words = Vec::new(heap);
    let mut from = 0;
    for at in 0..bytes.len() {
        if is_gap(bytes[at]) {
            if from < at {
                words.push(&text[from..at])?;
            }
            from = at + 1;
        }
    }
    if from < text.len() {
        words.push(&text[from..])?;
    }
    Ok(words)
}

// A space or a tab.
fn is_gap(byte: u8) -> bool
    ensures answer { result ≡ gap byte }
{
    byte == b' ' || byte == b'\t'
}

fn without_comment(line: &str) -> &str
    ensures text { result.now ≡ uncommented line.now }
{
    match line.split_once('#') {
        Some((text, _)) => text,
        None => line,
    }
}
