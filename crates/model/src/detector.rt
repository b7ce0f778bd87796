// What a detector means: it is told what the nodes of a computation do, and announces when all of it has ended.
ghost use Rattle.std.specs.Prelude.{◌≡◌};
ghost use Rattle.model.specs.Detection.{Detection, Lawful};
ghost use Rattle.model.specs.Detectors.{Begins, Sends, Receives, Idles, Turns, TellsActive};

use crate::refusal::Refusal;
use crate::turn::Turn;

pub trait Detector {
    // the computation, the announcement, and the turns
    ghost detection: { Self → Detection };

    // A computation of n nodes begins: node 0 is active, the others are passive.
    fn begin(&mut self, n: u8) -> Result<(), Refusal>
        ensures { Begins detection self.old n result self.new };

    // An active node has sent a message to another.
    fn sent(&mut self, from: u8, to: u8) -> Result<(), Refusal>
        ensures { Sends detection self.old from to result self.new };

    // The message has arrived, and its receiver is active.
    fn received(&mut self, to: u8, from: u8) -> Result<(), Refusal>
        ensures { Receives detection self.old to from result self.new };

    // An active node is passive from now on.
    fn idle(&mut self, node: u8) -> Result<(), Refusal>
        ensures { Idles detection self.old node result self.new };

    // The detector's own work at a node, where there is some.
    fn turn(&mut self, node: u8) -> Result<Turn, Refusal>
        ensures { Turns detection self.old node result self.new };

    fn active(&self, node: u8) -> Result<bool, Refusal>
        ensures { TellsActive detection self.now node result };

    // Whether it has announced that all are passive and no message is in transit.
    fn announced(&self) -> bool
        ensures { result ≡ (detection self.now).announced };

    ghost lawful: { (s : Self) → Lawful (detection s) };
}
