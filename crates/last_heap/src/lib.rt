// A heap that makes the cell that was freed last.
#![tactic(auto)]

mod heap;

pub use heap::LastHeap;
