// What a table holds.
ghost use Rattle.std.specs.Prelude.{◌≡◌, ℕ, ◌<◌, ◌&&◌, nat_lt};
ghost use Rattle.model.specs.Refusals.{Answers};
ghost use Rattle.model.specs.Cells.{is_free, is_white, is_grey};
ghost use Rattle.model.specs.Heaps.{node_asks, ReadsSlot, ReadsColour};
ghost use Rattle.table.specs.Rows.{row_cells};
ghost use Rattle.table.specs.Tables.{cells_of};
ghost use Rattle.cell_set.specs.Sets.{has};

use super::Table;
use crate::row::Row;
use cell_set::CellSet;
use model::{Colour, Reference, Refusal, ask};

impl Table {
    // The node's free cells.
    pub fn free(&self, node: u8) -> Result<CellSet, Refusal>
        ensures { Answers (node_asks node) result (Unit {0}) (λ set. (c : ℕ) → has set c ≡ (nat_lt c 64 && is_free (cells_of self.now node c))) }
    {
        Ok(self.row(node)?.free())
    }

    // The node's white cells.
    pub fn white(&self, node: u8) -> Result<CellSet, Refusal>
        ensures { Answers (node_asks node) result (Unit {0}) (λ set. (c : ℕ) → has set c ≡ is_white (cells_of self.now node c)) }
    {
        Ok(self.row(node)?.white())
    }

    // The node's grey cells.
    pub fn grey(&self, node: u8) -> Result<CellSet, Refusal>
        ensures { Answers (node_asks node) result (Unit {0}) (λ set. (c : ℕ) → has set c ≡ is_grey (cells_of self.now node c)) }
    {
        Ok(self.row(node)?.grey())
    }

    pub fn colour(&self, node: u8, cell: u8) -> Result<Colour, Refusal>
        ensures { ReadsColour cells_of self.now node cell result }
    {
        self.row(node)?.colour(cell)
    }

    // What a slot holds.
    pub fn slot(&self, node: u8, cell: u8, slot: u8) -> Result<Option<Reference>, Refusal>
        ensures { ReadsSlot cells_of self.now node cell slot result }
    {
        self.row(node)?.slot(cell, slot)
    }

    // The node's row.
    #[tactic(auto, using(crate::proofs::Nodes::rows))]
    fn row(&self, node: u8) -> Result<&Row, Refusal>
        ensures { Answers (node_asks node) result (Unit {0}) (λ row. (node < 16) × (row_cells row.now ≡ cells_of self.now node)) }
    {
        ask(node < 16, Refusal::NoSuchNode)?;
        Ok(&self.rows[usize::from(node)])
    }
}
