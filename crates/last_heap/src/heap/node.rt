// A node that there is.
ghost use Rattle.std.specs.Prelude.{◌<◌};

use model::{Refusal, ask};

#[derive(Clone, Copy)]
pub(super) struct Node {
    pub(super) number: u8,
    ghost near: { number < 16 },
}

impl Node {
    ghost use Rattle.std.specs.Prelude.{◌≡◌};
    ghost use Rattle.model.specs.Refusals.{Answers};
    ghost use Rattle.model.specs.Heaps.{node_asks};

    // Refused where there is no such node.
    pub(super) fn new(number: u8) -> Result<Node, Refusal>
        ensures { Answers (node_asks number) result (Unit {0}) (λ node. node.number ≡ number) }
    {
        ask(number < 16, Refusal::NoSuchNode)?;
        Ok(Node { number })
    }
}
