// One call of a grid of 8-byte cells, many times, and a checksum: tools/bench/cells.rs does the same with the original.
#![tactic(auto)]

use anyhow::anyhow;
use grid::grid::Grid;
use matrix::axis::Axis;
use matrix::shape::Order;
use std::env;

const SIDE: usize = 64;

// What a round does. A line that goes out at one place comes in at another, so that the size stays.
#[derive(Clone, Copy)]
enum Call {
    Get,
    Put,
    Lines(Axis),
    Flip(Axis),
}

// It has no clause: any other word is the caller's mistake, and what it prints is for people.
fn call_of(word: &str) -> anyhow::Result<Call> {
    match word {
        "get" => Ok(Call::Get),
        "put" => Ok(Call::Put),
        "rows" => Ok(Call::Lines(Axis::Row)),
        "cols" => Ok(Call::Lines(Axis::Col)),
        "flip_rows" => Ok(Call::Flip(Axis::Row)),
        "flip_cols" => Ok(Call::Flip(Axis::Col)),
        _ => Err(anyhow!("no such call: {word}")),
    }
}

// The cells, row by row, mixed into one number.
fn mixed(grid: &Grid<u64>) -> u64 {
    let mut all: u64 = 0;
    for r in 0..SIDE {
        for c in 0..SIDE {
            all = all
                .wrapping_mul(31)
                .wrapping_add(grid.get(r, c).unwrap_or(0));
        }
    }
    all
}

fn sum(grid: &Grid<u64>) -> u64 {
    let mut all: u64 = 0;
    for r in 0..SIDE {
        for c in 0..SIDE {
            all = all.wrapping_add(grid.get(r, c).unwrap_or(0));
        }
    }
    all
}

fn put_all(grid: &mut Grid<u64>, round: usize) {
    for r in 0..SIDE {
        for c in 0..SIDE {
            // A place of the grid is never refused.
            let _ = grid.put(r, c, ((r + c) as u64).wrapping_add(round as u64));
        }
    }
}

fn move_line(grid: &mut Grid<u64>, axis: Axis, at: usize, line: &mut [u64]) {
    if grid.remove(axis, at, line).is_ok() {
        let _ = grid.insert(axis, (SIDE - 1).saturating_sub(at), line);
    }
}

// What the round adds to the sum.
fn one_round(grid: &mut Grid<u64>, call: Call, round: usize, line: &mut [u64]) -> u64 {
    match call {
        Call::Get => return sum(grid),
        Call::Put => put_all(grid, round),
        Call::Lines(axis) => move_line(grid, axis, round % SIDE, line),
        Call::Flip(axis) => grid.flip(axis),
    }
    0
}

fn run(rt: &HostRuntime, call: Call, rounds: usize) -> anyhow::Result<()> {
    let mut memory = [0u64; SIDE * SIDE];
    for (k, x) in memory.iter_mut().enumerate() {
        *x = k as u64;
    }
    let mut line = [0u64; SIDE];
    let mut grid = Grid::from_vec_with_order(&mut memory, SIDE * SIDE, SIDE, Order::RowMajor);
    let mut all: u64 = 0;
    for round in 0..rounds {
        all = all.wrapping_add(one_round(&mut grid, call, round, &mut line));
    }
    let all = all.wrapping_add(mixed(&grid));
    println!(rt; "{all}")?;
    Ok(())
}

fn main(rt: HostRuntime) -> anyhow::Result<()> {
    let mut words = env::args(&rt)?.skip(1);
    let (Some(word), Some(rounds)) = (words.next(), words.next()) else {
        return Err(anyhow!("give a call and how many rounds: bench_cells CALL ROUNDS"));
    };
    let rounds = rounds.as_str().parse::<usize>()?;
    run(&rt, call_of(word.as_str())?, rounds)
}
