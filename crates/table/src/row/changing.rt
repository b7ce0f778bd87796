// The calls that change a row.
ghost use Rattle.std.specs.Prelude.{◌≡◌, ℕ, if◌then◌else◌, nat_lt};
ghost use Rattle.model.specs.Tables.{put, one, total};
ghost use Rattle.model.specs.Cells.{empty_slots, is_used, is_white, written, shaded, blackened, reclaimed};
ghost use Rattle.model.specs.Cells.Cell.{free, used};
ghost use Rattle.table.specs.Rows.{row_cells, use_asks, row_slot_asks, grey_asks, Changes};

use super::Row;
use crate::slots::Slots;
use cell_set::CellSet;
use model::{Colour, Reference, Refusal, Tally, ask};

impl Row {
    // Every cell is free.
    #[tactic(auto, unfolding(crate::specs::Rows::row_cells))]
    pub(crate) fn new() -> Row
        ensures { (c : ℕ) → row_cells result c ≡ free }
    {
        Row {
            free: CellSet::all(),
            black: CellSet::none(),
            grey: CellSet::none(),
            slots: [Slots::empty(); 64],
        }
    }

    // Frees every cell: what its marks and slots say of a free cell is not read.
    #[tactic(auto, unfolding(crate::specs::Rows::row_cells))]
    pub(crate) fn clear(&mut self)
        ensures { (c : ℕ) → row_cells self.new c ≡ free }
    {
        self.free = CellSet::all();
    }

    // Fills or empties a slot.
    #[tactic(auto, using(crate::proofs::Cells::writes))]
    pub(crate) fn set_slot(
        &mut self,
        cell: u8,
        slot: u8,
        what: Option<Reference>,
    ) -> Result<(), Refusal>
        ensures { Changes (row_slot_asks (row_cells self.old) cell slot) (written slot what) self.old cell result self.new }
    {
        ask(slot < 4, Refusal::NoSuchSlot)?;
        self.ask_in_use(cell)?;
        self.slots[usize::from(cell)].fill(slot, what);
        Ok(())
    }

    // Turns a white cell grey, and leaves any other: a black cell is black, whether it is among the grey ones or not.
    #[tactic(auto, using(crate::proofs::Cells::shades))]
    pub(crate) fn shade(&mut self, cell: u8) -> Result<(), Refusal>
        ensures { Changes (use_asks (row_cells self.old) cell) shaded self.old cell result self.new }
    {
        self.ask_in_use(cell)?;
        self.grey.insert(cell);
        Ok(())
    }

    // Turns a grey cell black.
    #[tactic(auto, using(crate::proofs::Cells::blackens))]
    pub(crate) fn blacken(&mut self, cell: u8) -> Result<(), Refusal>
        ensures { Changes (grey_asks (row_cells self.old) cell) blackened self.old cell result self.new }
    {
        self.ask_in_use(cell)?;
        ask(self.grey().has(cell), Refusal::NotGrey)?;
        self.black.insert(cell);
        Ok(())
    }

    // Takes a cell into use, whatever it was.
    pub(crate) fn occupy(&mut self, cell: u8, colour: Colour)
        ensures { row_cells self.new ≡ (if nat_lt cell 64 then put (row_cells self.old) cell (used colour empty_slots) else row_cells self.old) }
    {
        if cell < 64 {
            self.free.remove(cell);
            self.black.remove(cell);
            self.grey.remove(cell);
            self.slots[usize::from(cell)] = Slots::empty();
            match colour {
                Colour::White => {}
                Colour::Grey => self.grey.insert(cell),
                Colour::Black => self.black.insert(cell),
            }
        }
    }

    // Frees the white cells and turns the others white; answers how many it freed and how many it kept.
    #[tactic(auto, using(crate::proofs::Cells::reclaims))]
    pub(crate) fn reclaim(&mut self) -> Tally
        ensures cells { row_cells self.new ≡ (λ c. reclaimed (row_cells self.old c)) }
        ensures freed { result.freed ≡ total 64 (λ c. one (is_white (row_cells self.old c))) }
        ensures kept { result.kept ≡ total 64 (λ c. one (is_used (reclaimed (row_cells self.old c)))) }
    {
        let freed = self.white();
        let kept = self.kept();
        self.free = kept.others();
        self.black = CellSet::none();
        self.grey = CellSet::none();
        Tally {
            freed: freed.count(),
            kept: kept.count(),
        }
    }
}
