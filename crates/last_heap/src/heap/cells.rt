// The heap's meaning, and its choices.
ghost use Rattle.std.specs.Prelude.{◌≡◌};
ghost use Rattle.model.specs.Cells.{all_free};
ghost use Rattle.model.specs.Heaps.{Makes, WritesSlot, Shades, Blackens, AnswersGrey, Reclaims};
ghost use Rattle.last_heap.specs.Last.{last_cells, Begins, Stays, MakesLast, ShadesLast, BlackensLast, AnswersNewest, ReclaimsLast};
ghost use Rattle.table.proofs.Held.{sized};

use super::LastHeap;
use super::node::Node;
use model::{Colour, Heap, Reference, Refusal, Tally};

// A call that chooses nothing is the table's, in a line, here and in the other heap: one heap over a choice would say each call's effect on the choice through a trait.
impl Heap for LastHeap {
    ghost cells = { last_cells };

    ghost sized = { λ s. sized s.table };

    fn clear(&mut self)
        ensures cells { last_cells self.new ≡ all_free }
        ensures choice { Begins self.new }
    {
        *self = LastHeap::new();
    }

    fn make(&mut self, node: u8, colour: Colour) -> Result<u8, Refusal>
        ensures cells { Makes last_cells self.old node colour result self.new }
        ensures choice { MakesLast self.old node colour result self.new }
    {
        let node = Node::new(node)?;
        self.take(node, colour).ok_or(Refusal::NoFreeCell)
    }

    fn slot(&self, node: u8, cell: u8, slot: u8) -> Result<Option<Reference>, Refusal> {
        self.table.slot(node, cell, slot)
    }

    fn set_slot(
        &mut self,
        node: u8,
        cell: u8,
        slot: u8,
        what: Option<Reference>,
    ) -> Result<(), Refusal>
        ensures cells { WritesSlot last_cells self.old node cell slot what result self.new }
        ensures choice { Stays self.old self.new }
    {
        self.table.set_slot(node, cell, slot, what)
    }

    fn colour(&self, node: u8, cell: u8) -> Result<Colour, Refusal> {
        self.table.colour(node, cell)
    }

    fn shade(&mut self, node: u8, cell: u8) -> Result<(), Refusal>
        ensures cells { Shades last_cells self.old node cell result self.new }
        ensures choice { ShadesLast self.old node cell result self.new }
    {
        let node = Node::new(node)?;
        let white = self.table.white(node.number)?;
        self.table.shade(node.number, cell)?;
        if white.has(cell) {
            self.grey.push(node, cell);
        }
        Ok(())
    }

    fn blacken(&mut self, node: u8, cell: u8) -> Result<(), Refusal>
        ensures cells { Blackens last_cells self.old node cell result self.new }
        ensures choice { BlackensLast self.old node cell result self.new }
    {
        let node = Node::new(node)?;
        self.table.blacken(node.number, cell)?;
        self.grey.remove(node, cell);
        Ok(())
    }

    fn grey(&self, node: u8) -> Result<Option<u8>, Refusal>
        ensures cells { AnswersGrey last_cells self.now node result }
        ensures choice { AnswersNewest self.now node result }
    {
        Ok(self.newest(Node::new(node)?))
    }

    fn reclaim(&mut self, node: u8) -> Result<Tally, Refusal>
        ensures cells { Reclaims last_cells self.old node result self.new }
        ensures choice { ReclaimsLast self.old node result self.new }
    {
        let node = Node::new(node)?;
        let white = self.table.white(node.number)?;
        let counts = self.table.reclaim(node.number)?;
        self.free.push_each(node, white);
        self.grey.clear(node);
        Ok(counts)
    }
}
