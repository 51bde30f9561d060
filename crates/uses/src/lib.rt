// What is written once over any board.
#![tactic(auto)]

pub mod lists;
pub mod trips;
pub mod turns;
pub mod undo;
