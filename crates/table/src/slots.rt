// The slots of one cell. A struct of its own, since the prover knows the length of an array that is a field, not of one in an array.
ghost use Rattle.std.specs.Prelude.{◌≡◌, None, slice_index_or, slice_set};
ghost use Rattle.model.specs.Cells.{empty_slots};
ghost use Rattle.table.specs.Rows.{four};

use model::Reference;

#[derive(Clone, Copy)]
pub(crate) struct Slots {
    held: [Option<Reference>; 4],
}

#[tactic(auto, unfolding(crate::specs::Rows::four))]
impl Slots {
    pub(crate) fn empty() -> Slots
        ensures { four result ≡ empty_slots }
    {
        Slots { held: [None; 4] }
    }

    // What a slot holds.
    pub(crate) fn held(&self, slot: u8) -> Option<Reference>
        ensures { result ≡ slice_index_or (four self.now) slot None }
    {
        self.held.get(usize::from(slot)).copied().flatten()
    }

    // Fills or empties a slot, if there is one of that number.
    pub(crate) fn fill(&mut self, slot: u8, what: Option<Reference>)
        ensures { four self.new ≡ slice_set (four self.old) slot what }
    {
        if slot < 4 {
            self.held[usize::from(slot)] = what;
        }
    }
}
