// The heap's meaning, and its choices.
ghost use Rattle.std.specs.Prelude.{◌≡◌};
ghost use Rattle.model.specs.Cells.{all_free};
ghost use Rattle.model.specs.Heaps.{Makes, WritesSlot, Shades, Blackens, AnswersGrey, Reclaims};
ghost use Rattle.next_heap.specs.Next.{next_cells, starts, at_zero, MakesNext, AnswersLowest};
ghost use Rattle.table.proofs.Held.{sized};

use super::NextHeap;
use model::{Colour, Heap, Reference, Refusal, Tally};

// A call that chooses nothing is the table's, in a line, here and in the other heap: one heap over a choice would say each call's effect on the choice through a trait.
impl Heap for NextHeap {
    ghost cells = { next_cells };

    ghost sized = { λ s. sized s.table };

    fn clear(&mut self)
        ensures cells { next_cells self.new ≡ all_free }
        ensures choice { starts self.new ≡ at_zero }
    {
        self.table.clear();
        self.start = [0; 16];
    }

    #[tactic(auto, using(crate::proofs::Chosen::started))]
    fn make(&mut self, node: u8, colour: Colour) -> Result<u8, Refusal>
        ensures cells { Makes next_cells self.old node colour result self.new }
        ensures choice { MakesNext self.old node result self.new }
    {
        let cell = self.choose(node)?;
        self.table.occupy(node, cell, colour);
        self.start[node as usize] = cell + 1;
        Ok(cell)
    }

    fn slot(&self, node: u8, cell: u8, slot: u8) -> Result<Option<Reference>, Refusal> {
        self.table.slot(node, cell, slot)
    }

    fn set_slot(
        &mut self,
        node: u8,
        cell: u8,
        slot: u8,
        what: Option<Reference>,
    ) -> Result<(), Refusal>
        ensures cells { WritesSlot next_cells self.old node cell slot what result self.new }
        ensures choice { starts self.new ≡ starts self.old }
    {
        self.table.set_slot(node, cell, slot, what)
    }

    fn colour(&self, node: u8, cell: u8) -> Result<Colour, Refusal> {
        self.table.colour(node, cell)
    }

    fn shade(&mut self, node: u8, cell: u8) -> Result<(), Refusal>
        ensures cells { Shades next_cells self.old node cell result self.new }
        ensures choice { starts self.new ≡ starts self.old }
    {
        self.table.shade(node, cell)
    }

    fn blacken(&mut self, node: u8, cell: u8) -> Result<(), Refusal>
        ensures cells { Blackens next_cells self.old node cell result self.new }
        ensures choice { starts self.new ≡ starts self.old }
    {
        self.table.blacken(node, cell)
    }

    fn grey(&self, node: u8) -> Result<Option<u8>, Refusal>
        ensures cells { AnswersGrey next_cells self.now node result }
        ensures choice { AnswersLowest self.now node result }
    {
        self.lowest_grey(node)
    }

    fn reclaim(&mut self, node: u8) -> Result<Tally, Refusal>
        ensures cells { Reclaims next_cells self.old node result self.new }
        ensures choice { starts self.new ≡ starts self.old }
    {
        self.table.reclaim(node)
    }
}
