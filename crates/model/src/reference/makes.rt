// Making a reference and reading it.
ghost use Rattle.std.specs.Prelude.{◌≡◌};
ghost use Rattle.model.specs.Refusals.{Answers};
ghost use Rattle.model.specs.References.{reference_asks, Names};

use super::Reference;
use crate::refusal::{Refusal, ask};

impl Reference {
    // Refused where there is no such cell.
    pub fn new(node: u8, cell: u8) -> Result<Reference, Refusal>
        ensures { Answers (reference_asks node cell) result (Unit {0}) (Names node cell) }
    {
        ask(node < 16 && cell < 64, Refusal::OutOfRange)?;
        Ok(Reference { node, cell })
    }

    pub fn node(self) -> u8
        ensures { result ≡ self.node }
    {
        self.node
    }

    pub fn cell(self) -> u8
        ensures { result ≡ self.cell }
    {
        self.cell
    }
}
