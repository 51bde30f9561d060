// What a grid is.
use matrix::shape::Shape;

pub mod all;
pub mod blanks;
pub mod lines;
pub mod making;
pub mod questions;
pub mod turns;

// A matrix over lent memory. It stands for the cells that its shape names, where the memory has as many; no call makes
// one whose memory has fewer. Flat cells beyond R × C are free.
#[derive(Drop)]
pub struct Grid<'a, T> {
    // kept: memory is lent and never grows, so a slice and no Vec. That it is long enough is no invariant, since the calls below
    // take any slice and any shape, and each checks what it goes by.
    cells: &'a mut [T],
    shape: Shape,
}
