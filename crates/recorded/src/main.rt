// Reads calls of the original with its answers from standard input, makes them here, and prints where the two differ.
#![tactic(auto)]

use crate::entry::{Cell, Entry};
use matrix::limits::CELLS;
use std::alloc::Global;
use std::io;

mod entry;
mod name;
mod reading;
mod replay;

fn entries(heap: Global, text: &str) -> anyhow::Result<Vec<Entry>> {
    let mut all = Vec::new(heap);
    for (i, line) in text.lines().enumerate() {
        if !line.starts_with('#') {
            all.push(Entry::read(heap, i + 1, line)?)?;
        }
    }
    Ok(all)
}

fn run(rt: &HostRuntime) -> anyhow::Result<()> {
    let heap = rt.alloc();
    let text = io::read_to_string(heap, rt.stdin())?;
    let all = entries(heap, text.as_str())?;
    // Each grid stands over this memory.
    let mut memory = vec![in heap; Cell(0); CELLS]?;
    let tally = replay::replayed(heap, memory.as_mut_slice(), all.as_slice())?;
    for d in tally.differ.iter() {
        println!(rt; "differs: {} in {}", d.number, d.part)?;
    }
    println!(rt;
        "{} calls replayed, {} differ",
        tally.calls,
        tally.differ.len()
    )?;
    Ok(())
}

fn main(rt: HostRuntime) -> anyhow::Result<()> {
    run(&rt)
}
