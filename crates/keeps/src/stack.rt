// What a stack is.
pub mod calls;

// Cells on a stack over lent memory. M is the memory's length, or 65,536 if less; a count above M, which no call makes,
// stands for none.
#[derive(Drop)]
pub struct StackKeep<'a, T> {
    // kept: no heap, so a stack is lent memory and how much of it is used; a count above M stands for none, so that no invariant
    // beside a lent slice is needed
    cells: &'a mut [T],
    used: usize,
}
