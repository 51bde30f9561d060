// What a matrix is, what each call makes of one, and how its cells lie flat.
#![tactic(auto)]

pub mod axis;
pub mod checks;
pub mod laws;
pub mod limits;
pub mod making;
pub mod shape;
