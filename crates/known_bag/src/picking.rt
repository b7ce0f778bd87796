// Which of several messages a bag gives.
ghost use Rattle.std.specs.Prelude.{◌≡◌};

use channels::Bag;
use model::{Channel, Kind, Message, Refusal};

// An Open and then a Sweep wait for node 1: which of them does pick 3 give?
#[tactic(auto, using(crate::proofs::Picked::later_of_two))]
pub fn third_of_two() -> Result<Option<Kind>, Refusal>
    ensures { result ≡ Ok (Some Kind.Sweep) }
{
    let mut bag = Bag::new();
    bag.put(Message::new(0, 1, Kind::Open)?)?;
    bag.put(Message::new(0, 1, Kind::Sweep)?)?;
    Ok(bag.take(1, 3)?.map(Message::kind))
}
