// The look: a matrix read in flat cells that are lent for reading.
#![tactic(auto)]

pub mod look;
