// The sheet that steps back.
#![tactic(auto)]

mod axis;
pub mod edit;
mod journal;
pub mod sheets;
