// The calls of a grid on its flat cells, for every kind of cell and both orders, and segments of a slice.
#![tactic(auto)]

pub mod calls;
mod lines;
mod moves;
pub mod segment;
