// A value that is known of a bag of messages.
#![tactic(auto)]

mod picking;

pub use picking::third_of_two;
