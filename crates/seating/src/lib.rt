// Seats: tables that say which seat is which row and column of cells that never move.
#![tactic(auto)]

pub mod bench;
pub mod seating;
