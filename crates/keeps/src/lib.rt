// Keeps: where a sheet puts the cells that it may have to bring back.
#![tactic(auto)]

pub mod joined;
pub mod keep;
pub mod lines;
pub mod stack;
