// The seat board: cells that never move, and tables that say which seat is which row and column.
#![tactic(auto)]

pub mod board;
