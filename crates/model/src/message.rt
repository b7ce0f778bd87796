// A message from one node to another.
ghost use Rattle.std.specs.Prelude.{◌≡◌, true};
ghost use Rattle.model.specs.Kinds.{fits};

use crate::kind::Kind;

#[derive(Clone, Copy)]
pub struct Message {
    from: u8,
    to: u8,
    kind: Kind,
    ghost proper: { fits from to kind ≡ true },
}

mod makes;
