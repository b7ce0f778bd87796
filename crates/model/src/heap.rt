// What a heap means: cells by node and number, and what each call answers and does to them.
ghost use Rattle.std.specs.Prelude.{◌≡◌, ℕ, true, length};
ghost use Rattle.model.specs.Cells.{Cells, all_free, is_used, slots_of};
ghost use Rattle.model.specs.Heaps.{Makes, ReadsSlot, WritesSlot, ReadsColour, Shades, Blackens, AnswersGrey, Reclaims};

use crate::colour::Colour;
use crate::reference::Reference;
use crate::refusal::Refusal;
use crate::tally::Tally;

// Node and cell are two numbers and no Reference, which would ask of a caller what a call refuses.
pub trait Heap {
    // the cells, by node and number
    ghost cells: { Self → Cells };

    // Frees every cell.
    fn clear(&mut self)
        ensures { cells self.new ≡ all_free };

    // Takes some free cell into use and answers its number.
    fn make(&mut self, node: u8, colour: Colour) -> Result<u8, Refusal>
        ensures { Makes cells self.old node colour result self.new };

    // What a slot holds.
    fn slot(&self, node: u8, cell: u8, slot: u8) -> Result<Option<Reference>, Refusal>
        ensures { ReadsSlot cells self.now node cell slot result };

    // Fills or empties a slot.
    fn set_slot(
        &mut self,
        node: u8,
        cell: u8,
        slot: u8,
        what: Option<Reference>,
    ) -> Result<(), Refusal>
        ensures { WritesSlot cells self.old node cell slot what result self.new };

    fn colour(&self, node: u8, cell: u8) -> Result<Colour, Refusal>
        ensures { ReadsColour cells self.now node cell result };

    // Turns a white cell grey, and leaves any other.
    fn shade(&mut self, node: u8, cell: u8) -> Result<(), Refusal>
        ensures { Shades cells self.old node cell result self.new };

    // Turns a grey cell black.
    fn blacken(&mut self, node: u8, cell: u8) -> Result<(), Refusal>
        ensures { Blackens cells self.old node cell result self.new };

    // Some grey cell of the node, if it has one.
    fn grey(&self, node: u8) -> Result<Option<u8>, Refusal>
        ensures { AnswersGrey cells self.now node result };

    // Frees the node's white cells and turns its others white; answers how many it freed and how many it kept.
    fn reclaim(&mut self, node: u8) -> Result<Tally, Refusal>
        ensures { Reclaims cells self.old node result self.new };

    // a cell in use has four slots
    ghost sized: { (s : Self) (n c : ℕ) → is_used (cells s n c) ≡ true → length (slots_of (cells s n c)) ≡ 4 };
}
