// One host marks its own cells: what is held is shaded, and then each grey cell is scanned, until none is grey.
#![tactic(auto)]

ghost use Rattle.std.specs.Prelude.{◌≡◌, ◌<◌, true};
ghost use Rattle.model.specs.Cells.{is_grey};
ghost use Rattle.model.specs.Heaps.{in_use};
ghost use Rattle.model.specs.References.{Names};
ghost use Rattle.marking.specs.Reached.{Held, Named, Around, Reached};
ghost use Rattle.marking.specs.Darkened.{Darkened};
ghost use Rattle.marking.specs.Shaded.{Shades, Scans};
ghost use Rattle.marking.specs.Marked.{Marks};

use cell_list::CellList;
use model::{Heap, Reference, Refusal, ask};

// Heap and node stay two parameters: in a struct the heap would be a borrow, and each contract would owe besides that it is still the same one.

// Shades what a reference names, if it is a cell of this node.
fn shade_own<H: Heap>(heap: &mut H, node: u8, reference: Reference) -> Result<(), Refusal>
    ensures darkens { Darkened (λ c. Names node c reference) node (H.cells heap.old) (H.cells heap.new) }
    ensures shades { Shades (λ c. Names node c reference) node (H.cells heap.old) result (H.cells heap.new) }
{
    if reference.node() == node {
        heap.shade(node, reference.cell())?;
    }
    Ok(())
}

// Shades what is held.
#[tactic(auto, using(crate::proofs::Holding::holding_unused))]
fn shade_roots<H: Heap>(heap: &mut H, node: u8, roots: &[Reference]) -> Result<(), Refusal>
    ensures darkens { Darkened (Held node roots.now) node (H.cells heap.old) (H.cells heap.new) }
    ensures shades { Shades (Held node roots.now) node (H.cells heap.old) result (H.cells heap.new) }
{
    for root in roots {
        shade_own(heap, node, *root)?;
    }
    Ok(())
}

// Shades what the slots of a cell name.
fn shade_slots<H: Heap>(heap: &mut H, node: u8, cell: u8) -> Result<(), Refusal>
    requires node { node < 16 }
    requires used { in_use (H.cells heap.old) node cell ≡ true }
    ensures darkens { Darkened (Named (H.cells heap.old) node cell) node (H.cells heap.old) (H.cells heap.new) }
    ensures shades { Shades (Named (H.cells heap.old) node cell) node (H.cells heap.old) result (H.cells heap.new) }
{
    for slot in 0..4 {
        if let Some(reference) = heap.slot(node, cell, slot)? {
            shade_own(heap, node, reference)?;
        }
    }
    Ok(())
}

// Scans a grey cell: what its slots name is shaded, and then it turns black.
#[tactic(auto, using(std::proofs::lemmas::Bool::Decides::nat_tests, crate::proofs::Darkening::darkened_around))]
fn scan<H: Heap>(heap: &mut H, node: u8, cell: u8) -> Result<(), Refusal>
    requires node { node < 16 }
    requires cell { cell < 64 }
    requires grey { is_grey (H.cells heap.old node cell) ≡ true }
    ensures darkens { Darkened (Around (H.cells heap.old) node cell) node (H.cells heap.old) (H.cells heap.new) }
    ensures scans { Scans node cell (H.cells heap.old) result (H.cells heap.new) }
{
    shade_slots(heap, node, cell)?;
    heap.blacken(node, cell)?;
    Ok(())
}

// Marks the cells of one node from what is held, and answers the cells that it scanned, in order.
#[tactic(auto, using(crate::proofs::Marking::held_darkened, crate::proofs::Marking::held_unused, crate::proofs::Marking::marking_darkens, crate::proofs::Marking::fewer_left))]
pub fn mark<H: Heap>(heap: &mut H, node: u8, roots: &[Reference]) -> Result<CellList, Refusal>
    ensures darkens { Darkened (Reached (H.cells heap.old) node roots.now) node (H.cells heap.old) (H.cells heap.new) }
    ensures marks { Marks node roots.now (H.cells heap.old) result (H.cells heap.new) (heap.new ≡ heap.old) }
{
    ask(node < 16, Refusal::NoSuchNode)?;
    shade_roots(heap, node, roots)?;
    let mut scanned = CellList::new();
    while let Some(cell) = heap.grey(node)? {
        scan(heap, node, cell)?;
        scanned.push(cell);
    }
    Ok(scanned)
}
