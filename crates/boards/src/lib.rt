// Boards: one interface, and the boards that stand under it.
#![tactic(auto)]

pub mod board;
pub mod dense;
pub mod turned;
