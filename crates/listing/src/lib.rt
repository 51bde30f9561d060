// What the lines of a scorer's list say, and how cells, answers and errors are spelt.
#![tactic(auto)]

pub mod answer;
pub mod call;
pub mod digits;
pub mod name;
pub mod written;
pub mod wrong;
