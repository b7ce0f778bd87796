// What a heap makes once cells have been freed.
ghost use Rattle.std.specs.Prelude.{◌≡◌, Ok};

use last_heap::LastHeap;
use model::{Colour, Heap, Refusal};

// A heap that makes the cell freed last makes two white cells and reclaims them: what does it make then?
#[tactic(auto, using(crate::proofs::Freed::first_made, crate::proofs::Freed::second_made, crate::proofs::Freed::higher_first))]
pub fn make_after_reclaim() -> Result<u8, Refusal>
    ensures { result ≡ Ok 1 }
{
    let mut heap = LastHeap::new();
    heap.make(0, Colour::White)?;
    heap.make(0, Colour::White)?;
    heap.reclaim(0)?;
    heap.make(0, Colour::White)
}
