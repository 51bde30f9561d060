// Grids mapped: a grid of the same shape over other memory, each cell answered from the cell at its place.
#![tactic(auto)]

pub mod map;
pub mod rule;
