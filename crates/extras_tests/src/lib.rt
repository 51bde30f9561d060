// Worked cases of looks, and of grids mapped.
#![tactic(auto)]

#[cfg(test)]
mod expect;
#[cfg(test)]
mod looked;
#[cfg(test)]
mod mapped;
