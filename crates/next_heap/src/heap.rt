// A heap that makes the first free cell after the one it last made on that node, going round; its grey cell is the lowest.
use table::Table;

#[derive(Clone, Copy)]
pub struct NextHeap {
    table: Table,
    // for each node, the cell after the one last made: a choice of this heap alone, so no part of the table
    start: [u8; 16],
}

mod calls;
mod cells;
mod choices;
