// A short list of cells, as heaps and marking keep them.
#![tactic(auto)]

use short_list::ShortList;

// Up to 64 numbers of cells of one node, in order; the newest is last.
pub type CellList = ShortList<u8, 64>;
