// What a row holds.
ghost use Rattle.std.specs.Prelude.{◌≡◌, ℕ, ◌<◌, ◌&&◌, None, nat_lt, slice_index_or};
ghost use Rattle.model.specs.Refusals.{Answers};
ghost use Rattle.model.specs.Cells.{slots_of, is_free, is_used, is_white, is_grey, reclaimed};
ghost use Rattle.model.specs.Heaps.{Coloured};
ghost use Rattle.table.specs.Rows.{row_cells, use_asks, row_slot_asks};
ghost use Rattle.cell_set.specs.Sets.{has};

use super::Row;
use cell_set::CellSet;
use model::{Colour, Reference, Refusal, ask};

#[tactic(auto, unfolding(crate::specs::Rows::row_cells))]
impl Row {
    // The free cells.
    pub(crate) fn free(&self) -> CellSet
        ensures { (c : ℕ) → has result c ≡ (nat_lt c 64 && is_free (row_cells self.now c)) }
    {
        self.free
    }

    // The white cells.
    pub(crate) fn white(&self) -> CellSet
        ensures { (c : ℕ) → has result c ≡ is_white (row_cells self.now c) }
    {
        self.free.others().minus(self.black).minus(self.grey)
    }

    // The grey cells.
    pub(crate) fn grey(&self) -> CellSet
        ensures { (c : ℕ) → has result c ≡ is_grey (row_cells self.now c) }
    {
        self.grey.minus(self.free).minus(self.black)
    }

    // The cells that a reclaim keeps.
    pub(super) fn kept(&self) -> CellSet
        ensures { (c : ℕ) → has result c ≡ is_used (reclaimed (row_cells self.now c)) }
    {
        self.black.union(self.grey).minus(self.free)
    }

    pub(crate) fn colour(&self, cell: u8) -> Result<Colour, Refusal>
        ensures { Answers (use_asks (row_cells self.now) cell) result (Unit {0}) (Coloured (row_cells self.now cell)) }
    {
        self.ask_in_use(cell)?;
        if self.black.has(cell) {
            Ok(Colour::Black)
        } else if self.grey.has(cell) {
            Ok(Colour::Grey)
        } else {
            Ok(Colour::White)
        }
    }

    // What a slot holds.
    pub(crate) fn slot(&self, cell: u8, slot: u8) -> Result<Option<Reference>, Refusal>
        ensures { Answers (row_slot_asks (row_cells self.now) cell slot) result (Unit {0}) (λ what. what ≡ slice_index_or (slots_of (row_cells self.now cell)) slot None) }
    {
        ask(slot < 4, Refusal::NoSuchSlot)?;
        self.ask_in_use(cell)?;
        Ok(self.slots[usize::from(cell)].held(slot))
    }

    // Is there such a cell, and is it in use?
    pub(super) fn ask_in_use(&self, cell: u8) -> Result<(), Refusal>
        ensures { Answers (use_asks (row_cells self.now) cell) result (Unit {0}) (λ _. cell < 64) }
    {
        ask(cell < 64 && !self.free.has(cell), Refusal::NotInUse)
    }
}
