// The number of a kind, and the ranges of what it carries.
ghost use Rattle.std.specs.Prelude.{◌≡◌};
ghost use Rattle.model.specs.Kinds.{kind_number, carries};

use super::Kind;

impl Kind {
    // A table, since `as` gives a number only to an enum that carries nothing.
    pub fn number(self) -> u8
        ensures { result ≡ kind_number self }
    {
        match self {
            Kind::Open => 1,
            Kind::Opened => 2,
            Kind::Start => 3,
            Kind::Mark(_) => 4,
            Kind::Ref { .. } => 5,
            Kind::RefAck { .. } => 6,
            Kind::Sweep => 7,
            Kind::Swept { .. } => 8,
        }
    }

    // Whether what it carries keeps its ranges, in a message to that node.
    pub(crate) fn fits(self, to: u8) -> bool
        ensures { result ≡ carries to self }
    {
        match self {
            Kind::Open | Kind::Opened | Kind::Start | Kind::Sweep => true,
            Kind::Mark(reference) => reference.node() == to,
            Kind::Ref {
                register,
                stamp,
                ..
            } => register < 8 && stamp < 2,
            Kind::RefAck { stamp } => stamp < 2,
            Kind::Swept { freed, kept } => u16::from(freed) + u16::from(kept) <= 64,
        }
    }
}
