// The cells of sixteen nodes in tables: for each node a row, of three sets of cells and the slots of each cell.
#![tactic(auto)]

mod row;
mod slots;
mod table;

pub use table::Table;
