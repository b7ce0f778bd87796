// Making a message and reading it.
ghost use Rattle.std.specs.Prelude.{◌≡◌};
ghost use Rattle.model.specs.Refusals.{Answers};
ghost use Rattle.model.specs.Kinds.{message_asks};
ghost use Rattle.model.specs.Messages.{Bears};

use super::Message;
use crate::kind::Kind;
use crate::refusal::{Refusal, ask};

impl Message {
    // Refused where a number is out of its range.
    pub fn new(from: u8, to: u8, kind: Kind) -> Result<Message, Refusal>
        ensures { Answers (message_asks from to kind) result (Unit {0}) (Bears from to kind) }
    {
        ask(
            from < 16 && to < 16 && from != to && kind.fits(to),
            Refusal::OutOfRange,
        )?;
        Ok(Message { from, to, kind })
    }

    pub fn from(self) -> u8
        ensures { result ≡ self.from }
    {
        self.from
    }

    pub fn to(self) -> u8
        ensures { result ≡ self.to }
    {
        self.to
    }

    pub fn kind(self) -> Kind
        ensures { result ≡ self.kind }
    {
        self.kind
    }
}
