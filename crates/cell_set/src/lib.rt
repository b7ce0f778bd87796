// Sets of cells of one node.
#![tactic(auto)]

mod set;

pub use set::CellSet;
