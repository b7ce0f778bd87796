// Messages that wait, in the order in which they were put.
#![tactic(auto)]

mod queue;

pub use queue::Queue;
