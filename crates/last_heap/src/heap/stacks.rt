// A stack of cells for each node; the newest cell is on top.
ghost use Rattle.std.specs.Prelude.{◌≡◌, ◌<◌, ◌≤◌, [], ◌++◌, length};
ghost use Rattle.model.specs.Tables.{put};
ghost use Rattle.cell_list.specs.Lists.{listed, without, Newest};
ghost use Rattle.cell_set.specs.Sets.{has};
ghost use Rattle.last_heap.specs.Stacks.{stack, at_nodes, on_top, rising, falling, Takes};

use super::node::Node;
use cell_list::CellList;
use cell_set::CellSet;

#[derive(Clone, Copy)]
pub(super) struct Stacks {
    lists: [CellList; 16],
}

#[tactic(auto, using(crate::proofs::Replaced::same_stacks, crate::proofs::Replaced::set_list, crate::proofs::Replaced::list_at))]
impl Stacks {
    // The same cells for every node.
    pub(super) fn each(list: CellList) -> Stacks
        ensures { stack result ≡ at_nodes (listed list) }
    {
        Stacks { lists: [list; 16] }
    }

    // Puts a cell on top.
    pub(super) fn push(&mut self, node: Node, cell: u8)
        requires { length (stack self.old node.number) < 64 }
        ensures { stack self.new ≡ on_top (stack self.old) node.number cell }
    {
        self.lists[node.number as usize].push(cell);
    }

    // Takes the top cell away, if there is one.
    #[tactic(auto, using(crate::proofs::Replaced::takes))]
    pub(super) fn pop(&mut self, node: Node) -> Option<u8>
        ensures { Takes self.old node.number result self.new }
    {
        self.lists[node.number as usize].pop()
    }

    // The top cell, if there is one.
    pub(super) fn top(&self, node: Node) -> Option<u8>
        ensures { Newest (stack self.now node.number) result }
    {
        self.lists[node.number as usize].last()
    }

    // Takes a cell out wherever it stands.
    pub(super) fn remove(&mut self, node: Node, cell: u8)
        ensures { stack self.new ≡ put (stack self.old) node.number (without cell (stack self.old node.number)) }
    {
        self.lists[node.number as usize].remove(cell);
    }

    // Puts the cells of a set on top, the lowest first.
    pub(super) fn push_each(&mut self, node: Node, cells: CellSet)
        requires { length (stack self.old node.number ++ rising 64 (has cells)) ≤ 64 }
        ensures { stack self.new ≡ put (stack self.old) node.number (stack self.old node.number ++ rising 64 (has cells)) }
    {
        append(&mut self.lists[node.number as usize], cells);
    }

    // Takes every cell of the node away.
    pub(super) fn clear(&mut self, node: Node)
        ensures { stack self.new ≡ put (stack self.old) node.number [] }
    {
        self.lists[node.number as usize].clear();
    }
}

// Adds the cells of a set to a list, the lowest first.
#[tactic(auto, using(crate::proofs::Ranges::rising_none))]
fn append(list: &mut CellList, cells: CellSet)
    requires { length (listed list.old ++ rising 64 (has cells)) ≤ 64 }
    ensures { listed list.new ≡ listed list.old ++ rising 64 (has cells) }
{
    for cell in 0..64 {
        if cells.has(cell) {
            list.push(cell);
        }
    }
}

// All cells, the lowest last.
#[tactic(auto, using(crate::proofs::Ranges::falling_none))]
pub(super) fn all_cells() -> CellList
    ensures { listed result ≡ falling 64 }
{
    let mut list = CellList::new();
    for cell in (0..64).rev() {
        list.push(cell);
    }
    list
}
