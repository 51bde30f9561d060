// The same cases on every board.
#![tactic(auto)]

#[cfg(test)]
mod any_board;
#[cfg(test)]
mod expect;
#[cfg(test)]
mod limits;
#[cfg(test)]
mod lists;
