// Which free cell is made, and which grey cell is answered.
ghost use Rattle.std.specs.Prelude.{◌≡◌, ◌&&◌, nat_le};
ghost use Rattle.model.specs.Tables.{first, or_else};
ghost use Rattle.model.specs.Refusals.{Answers};
ghost use Rattle.model.specs.Heaps.{make_asks, AnswersGrey};
ghost use Rattle.cell_set.specs.Sets.{has};
ghost use Rattle.next_heap.specs.Next.{next_cells, NextFree, AnswersLowest};

use super::NextHeap;
use cell_set::CellSet;
use model::Refusal;

impl NextHeap {
    // The node's first free cell from where it starts, going round.
    pub(super) fn choose(&self, node: u8) -> Result<u8, Refusal>
        ensures { Answers (make_asks (next_cells self.now) node) result (Unit {0}) (NextFree self.now node) }
    {
        let free = self.table.free(node)?;
        from_start(free, self.start[node as usize]).ok_or(Refusal::NoFreeCell)
    }

    // The node's lowest grey cell, if it has one.
    #[tactic(auto, using(crate::proofs::Chosen::grey_lowest))]
    pub(super) fn lowest_grey(&self, node: u8) -> Result<Option<u8>, Refusal>
        ensures cells { AnswersGrey next_cells self.now node result }
        ensures choice { AnswersLowest self.now node result }
    {
        Ok(self.table.grey(node)?.lowest())
    }
}

// The first cell of the set from `start` on, going round.
fn from_start(free: CellSet, start: u8) -> Option<u8>
    ensures { result ≡ or_else (first 64 (λ c. nat_le start c && has free c)) (first 64 (has free)) }
{
    free.lowest_from(start).or_else(|| free.lowest())
}
