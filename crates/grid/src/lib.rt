// The dense grid: a matrix over memory that its caller hands in.
#![tactic(auto)]

pub mod grid;
