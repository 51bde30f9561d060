// Kinds of cell, and the ways in which a call says no.
#![tactic(auto)]

pub mod kinds;
pub mod refusal;
