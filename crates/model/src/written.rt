// How references, kinds and refusals are written.
ghost use Rattle.std.specs.Prelude.{Some};
ghost use Rattle.model.specs.Written.{reference_text, kind_text, refusal_text};

use crate::kind::Kind;
use crate::reference::Reference;
use crate::refusal::Refusal;
use std::error::Error;
use std::fmt;

// Node, colon, cell.
impl fmt::Display for Reference {
    ghost output = { λ x. Some (reference_text x) };

    fn fmt<W: fmt::Write>(&self, f: &mut fmt::Formatter<W>) -> fmt::Result {
        let node = self.node();
        let cell = self.cell();
        write!(f, "{node}:{cell}")
    }
}

// Its name, and what it carries.
impl fmt::Display for Kind {
    ghost output = { λ x. Some (kind_text x) };

    fn fmt<W: fmt::Write>(&self, f: &mut fmt::Formatter<W>) -> fmt::Result {
        match *self {
            Kind::Open => write!(f, "Open"),
            Kind::Opened => write!(f, "Opened"),
            Kind::Start => write!(f, "Start"),
            Kind::Mark(reference) => write!(f, "Mark {reference}"),
            Kind::Ref {
                reference,
                register,
                stamp,
            } => write!(f, "Ref {reference} for register {register}, stamp {stamp}"),
            Kind::RefAck { stamp } => write!(f, "RefAck, stamp {stamp}"),
            Kind::Sweep => write!(f, "Sweep"),
            Kind::Swept { freed, kept } => write!(f, "Swept, {freed} freed, {kept} kept"),
        }
    }
}

// The number that users see.
impl fmt::Display for Refusal {
    ghost output = { λ x. Some (refusal_text x) };

    fn fmt<W: fmt::Write>(&self, f: &mut fmt::Formatter<W>) -> fmt::Result {
        let number = self.number();
        write!(f, "refusal {number}")
    }
}

impl Error for Refusal {}
