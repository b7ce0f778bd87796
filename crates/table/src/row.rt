// The cells of one node. A cell is free, or black, or grey, or white: it is what the first of these sets says that has it, and white where none has.
mod changing;
mod reading;

use crate::slots::Slots;
use cell_set::CellSet;

#[derive(Clone, Copy)]
pub(crate) struct Row {
    // sets beside the slots, and no colour in each cell: a reclaim and the next free cell are then a few word operations
    free: CellSet,
    black: CellSet,
    grey: CellSet,
    slots: [Slots; 64],
}
