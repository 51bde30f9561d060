// The board of a layout, over lent memory, and work on it that is written once for any board.
#![tactic(auto)]

pub mod over;
