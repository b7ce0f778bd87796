// The words of the collector as types, and what its parts mean: a heap of cells, a channel of messages, a detector of the end.
#![tactic(auto)]

mod channel;
mod colour;
mod detector;
mod heap;
mod kind;
mod message;
mod reference;
mod refusal;
mod tally;
mod turn;
mod written;

pub use channel::Channel;
pub use colour::Colour;
pub use detector::Detector;
pub use heap::Heap;
pub use kind::Kind;
pub use message::Message;
pub use reference::Reference;
pub use refusal::{Refusal, ask};
pub use tally::Tally;
pub use turn::Turn;
