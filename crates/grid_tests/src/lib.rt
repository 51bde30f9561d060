// Worked cases of the grid, and the examples of the original's documentation.
#![tactic(auto)]

#[cfg(test)]
mod cases;
#[cfg(test)]
mod examples;
#[cfg(test)]
mod expect;
#[cfg(test)]
mod walked;
