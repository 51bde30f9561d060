// Sheets on every board and every keep.
#![tactic(auto)]

#[cfg(test)]
mod expect;
#[cfg(test)]
mod mirrors;
#[cfg(test)]
mod worked;
