// Reads a scorer's list and prints the answer to each of its lines.
#![tactic(auto)]

ghost use Rattle.std.specs.Prelude.{IsOk};
ghost use Rattle.scoresheet.specs.Outcomes.{Answerable};

use crate::sheets::answers;
use anyhow::anyhow;
use std::alloc::Global;
use std::io::Read;
use std::{env, fs};

mod answers;
mod grounds;
mod help;
mod lines;
mod output;
mod script;
mod sheets;
mod spelt;

// Answers the list that the program is given, or prints its help.
// It has no clause: what it is given is outside contracts, and it only hands a text on.
fn run(rt: &HostRuntime) -> anyhow::Result<()> {
    let mut words = env::args(rt)?.skip(1);
    let file = words.next();
    if words.next().is_some() {
        return Err(anyhow!("scoresheet takes one list: scoresheet [FILE]"));
    }
    if let Some(word) = &file {
        if word.as_str() == "--help" {
            return print(rt, &help::LINES);
        }
    }
    let text = list(rt, rt.alloc(), file)?;
    answer_list(rt, text.as_str())
}

// Prints the answers of a list: ends well only where each of its lines is a call, or says nothing, and the first call makes a sheet.
fn answer_list(rt: &HostRuntime, text: &str) -> anyhow::Result<()>
    ensures sound { IsOk result → Answerable text.now }
{
    let out = answers(rt.alloc(), text)?;
    print!(rt; "{}", out.text)?;
    out.finish()
}

fn print(rt: &HostRuntime, help: &[&str]) -> anyhow::Result<()> {
    for line in help {
        println!(rt; "{line}")?;
    }
    Ok(())
}

// A list, from its file or from standard input. Bytes that are no text stay in their line, as characters that no call has.
fn list(rt: &HostRuntime, heap: Global, file: Option<String>) -> anyhow::Result<String> {
    let bytes = match file {
        Some(name) => fs::read(rt, name.as_str()).map_err(|e| anyhow!("{name}: {e}"))?,
        None => {
            let mut bytes = Vec::new(heap);
            rt.stdin().read_to_end(&mut bytes)?;
            bytes
        }
    };
    Ok(String::from_utf8_lossy(heap, bytes.as_slice())?)
}

fn main(rt: HostRuntime) -> anyhow::Result<()> {
    run(&rt)
}
