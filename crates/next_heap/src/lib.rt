// A heap that makes the next free cell, going round.
#![tactic(auto)]

mod heap;

pub use heap::NextHeap;
