// Walks: a grid's cells, a line's cells and a grid's lines, one after another.
#![tactic(auto)]

pub mod index;
pub mod line;
pub mod lines;
pub mod walk;
