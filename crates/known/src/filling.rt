// How much a node holds.
ghost use Rattle.std.specs.Prelude.{◌≡◌};
ghost use Rattle.known.specs.Filling.{after_makes};

use model::{Colour, Heap, Refusal};

// Clears a heap, makes `count` cells on a node, and answers what comes of one make more.
#[tactic(auto, using(crate::proofs::Filled::none_filled))]
pub fn make_after<H: Heap>(heap: &mut H, node: u8, count: u8) -> Result<(), Refusal>
    ensures { result ≡ after_makes node count }
{
    heap.clear();
    for _made in 0..=count {
        heap.make(node, Colour::White)?;
    }
    Ok(())
}
