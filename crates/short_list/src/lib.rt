// A short list of values of one type, which holds them itself.
#![tactic(auto)]

mod list;

pub use list::ShortList;
