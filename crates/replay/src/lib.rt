// A scorer's list run on a sheet, and the law over every list.
#![tactic(auto)]

pub mod call;
pub mod cases;
pub mod lists;
pub mod mirror;
mod steps;
pub mod tally;
