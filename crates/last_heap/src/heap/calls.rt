// Making a heap, and what it chooses.
ghost use Rattle.std.specs.Prelude.{◌≡◌};
ghost use Rattle.model.specs.Cells.{all_free};
ghost use Rattle.model.specs.Heaps.{GreyCell};
ghost use Rattle.cell_list.specs.Lists.{Newest};
ghost use Rattle.last_heap.specs.Last.{last_cells, greys, Begins, TakesFree, TakesLast};

use super::LastHeap;
use super::node::Node;
use super::stacks::{Stacks, all_cells};
use cell_list::CellList;
use model::Colour;
use table::Table;

impl LastHeap {
    // Every cell is free, the lowest on top, and none is grey.
    pub fn new() -> LastHeap
        ensures cells { last_cells result ≡ all_free }
        ensures choice { Begins result }
    {
        LastHeap {
            table: Table::new(),
            free: Stacks::each(all_cells()),
            grey: Stacks::each(CellList::new()),
        }
    }

    // Takes the top free cell into use, if there is one.
    #[tactic(auto, using(crate::proofs::Making::none_free))]
    pub(super) fn take(&mut self, node: Node, colour: Colour) -> Option<u8>
        ensures cells { TakesFree self.old node.number colour result self.new }
        ensures choice { TakesLast self.old node.number colour result self.new }
    {
        let cell = self.free.pop(node)?;
        self.table.occupy(node.number, cell, colour);
        if let Colour::Grey = colour {
            self.grey.push(node, cell);
        }
        Some(cell)
    }

    // The newest grey cell, if there is one.
    pub(super) fn newest(&self, node: Node) -> Option<u8>
        ensures cells { GreyCell (last_cells self.now) node.number result }
        ensures choice { Newest (greys self.now node.number) result }
    {
        self.grey.top(node)
    }
}
