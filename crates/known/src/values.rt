// The values, which grow with the parts.
ghost use Rattle.std.specs.Prelude.{◌≡◌};
ghost use Rattle.known.specs.Known.{known_outcomes};

use crate::filling::make_after;
use crate::freeing::make_after_reclaim;
use last_heap::LastHeap;
use model::Refusal;
use next_heap::NextHeap;

#[derive(Clone, Copy)]
pub struct KnownValues {
    // what comes of the 64th make on a node, and of the 65th
    pub next_heap: [Result<(), Refusal>; 2],
    pub last_heap: [Result<(), Refusal>; 2],
    // the cell that is made once two white ones were made and reclaimed
    pub freed_last: Result<u8, Refusal>,
}

pub fn known_values() -> KnownValues
    ensures { result ≡ known_outcomes }
{
    KnownValues {
        next_heap: [
            make_after(&mut NextHeap::new(), 0, 63),
            make_after(&mut NextHeap::new(), 0, 64),
        ],
        last_heap: [
            make_after(&mut LastHeap::new(), 0, 63),
            make_after(&mut LastHeap::new(), 0, 64),
        ],
        freed_last: make_after_reclaim(),
    }
}
