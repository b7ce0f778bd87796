// The calls that change a table.
ghost use Rattle.std.specs.Prelude.{◌≡◌, ◌&&◌, if◌then◌else◌, nat_lt};
ghost use Rattle.model.specs.Tables.{put₂};
ghost use Rattle.model.specs.Cells.{all_free, empty_slots};
ghost use Rattle.model.specs.Cells.Cell.{used};
ghost use Rattle.model.specs.Heaps.{WritesSlot, Shades, Blackens, Reclaims};
ghost use Rattle.table.specs.Tables.{cells_of};

use super::Table;
use crate::row::Row;
use model::{Colour, Reference, Refusal, Tally, ask};

#[tactic(auto, using(crate::proofs::Nodes::rows))]
impl Table {
    // Every cell is free.
    #[tactic(auto, using(crate::proofs::Nodes::all_freed))]
    pub fn new() -> Table
        ensures { cells_of result ≡ all_free }
    {
        Table {
            rows: [Row::new(); 16],
        }
    }

    // Frees every cell.
    #[tactic(auto, using(crate::proofs::Nodes::cleared_more, crate::proofs::Nodes::all_cleared))]
    pub fn clear(&mut self)
        ensures { cells_of self.new ≡ all_free }
    {
        for node in 0..16 {
            self.rows[node].clear();
        }
    }

    // Fills or empties a slot.
    pub fn set_slot(
        &mut self,
        node: u8,
        cell: u8,
        slot: u8,
        what: Option<Reference>,
    ) -> Result<(), Refusal>
        ensures { WritesSlot cells_of self.old node cell slot what result self.new }
    {
        ask(node < 16, Refusal::NoSuchNode)?;
        self.rows[usize::from(node)].set_slot(cell, slot, what)
    }

    // Turns a white cell grey, and leaves any other.
    pub fn shade(&mut self, node: u8, cell: u8) -> Result<(), Refusal>
        ensures { Shades cells_of self.old node cell result self.new }
    {
        ask(node < 16, Refusal::NoSuchNode)?;
        self.rows[usize::from(node)].shade(cell)
    }

    // Turns a grey cell black.
    pub fn blacken(&mut self, node: u8, cell: u8) -> Result<(), Refusal>
        ensures { Blackens cells_of self.old node cell result self.new }
    {
        ask(node < 16, Refusal::NoSuchNode)?;
        self.rows[usize::from(node)].blacken(cell)
    }

    // Takes a cell into use, whatever it was.
    pub fn occupy(&mut self, node: u8, cell: u8, colour: Colour)
        ensures { cells_of self.new ≡ (if nat_lt node 16 && nat_lt cell 64 then put₂ (cells_of self.old) node cell (used colour empty_slots) else cells_of self.old) }
    {
        if node < 16 {
            self.rows[usize::from(node)].occupy(cell, colour);
        }
    }

    // Frees the node's white cells and turns its others white; answers how many it freed and how many it kept.
    pub fn reclaim(&mut self, node: u8) -> Result<Tally, Refusal>
        ensures { Reclaims cells_of self.old node result self.new }
    {
        ask(node < 16, Refusal::NoSuchNode)?;
        Ok(self.rows[usize::from(node)].reclaim())
    }
}
