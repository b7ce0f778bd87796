// Two channels: one gives messages in order of put, the other by a pick.
#![tactic(auto)]

mod choice;
mod queue_channel;

pub use choice::{Choice, Oldest, Picked};
pub use queue_channel::QueueChannel;

// Gives the message that waits longest for the node; 256 can wait.
pub type Fifo = QueueChannel<Oldest>;

// Gives whichever message for the node the pick names; 64 can wait.
pub type Bag = QueueChannel<Picked>;
