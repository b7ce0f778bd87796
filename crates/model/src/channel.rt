// What a channel means: which messages wait, how many can, and what each call answers and does to them.
ghost use Rattle.std.specs.Prelude.{◌≡◌, ℕ, ◌≤◌, List, length};
ghost use Rattle.model.specs.Channels.{Cleared, Puts, Takes};
ghost use Rattle.model.specs.declared.message.Message.{Message};

use crate::message::Message;
use crate::refusal::Refusal;

pub trait Channel {
    // the messages that wait, of which only the counts matter
    ghost waiting: { Self → List Message };

    // how many can wait, for all nodes together
    ghost capacity: { Self → ℕ };

    // How many messages can wait.
    fn capacity(&self) -> u16
        ensures { result ≡ capacity self.now };

    // Drops every message.
    fn clear(&mut self)
        ensures { Cleared waiting capacity self.old self.new };

    // One message more waits.
    fn put(&mut self, message: Message) -> Result<(), Refusal>
        ensures { Puts waiting capacity self.old message result self.new };

    // Some message for the node, if one waits, which waits no more. A channel may choose by the pick.
    fn take(&mut self, node: u8, pick: u8) -> Result<Option<Message>, Refusal>
        ensures { Takes waiting capacity self.old node result self.new };

    ghost roomy: { (s : Self) → (1 ≤ capacity s) × (capacity s ≤ 256) };

    ghost held: { (s : Self) → length (waiting s) ≤ capacity s };
}
