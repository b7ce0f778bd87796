// Adding messages to a queue and taking them from it.
ghost use Rattle.std.specs.Prelude.{◌≡◌, ◌%◌, ◌<◌, ◌≤◌, length, Some};
ghost use Rattle.std.specs.List.{slice_get, remove};
ghost use Rattle.model.specs.Channels.{Cleared, Puts, Gives};
ghost use Rattle.queue.specs.Queues.{queued, limit_of, lanes, PutsLast, Reaches, Given};

use super::Queue;
use model::{Message, Refusal, ask};

impl Queue {
    pub fn clear(&mut self)
        ensures { Cleared queued limit_of self.old self.new }
    {
        self.messages.clear();
    }

    // One message more waits.
    #[tactic(auto, using(crate::proofs::Lanes::added_last, crate::proofs::Lanes::added_count))]
    pub fn put(&mut self, message: Message) -> Result<(), Refusal>
        ensures waiting { Puts queued limit_of self.old message result self.new }
        ensures choice { PutsLast self.old message result self.new }
    {
        ask(self.has_room(), Refusal::NoRoom)?;
        self.messages.push(message);
        Ok(())
    }

    // Takes the message that waits longest for the node, if one waits.
    pub fn oldest(&mut self, node: u8) -> Option<Message>
        ensures waiting { Gives queued limit_of self.old node result self.new }
        ensures choice { Given self.old node 0 result self.new }
    {
        self.take(node, 0)
    }

    // Of the messages for the node, takes number `pick` modulo their count, if one waits.
    pub fn pick(&mut self, node: u8, pick: u8) -> Option<Message>
        ensures waiting { Gives queued limit_of self.old node result self.new }
        ensures choice { Given self.old node (pick % length (lanes self.old node)) result self.new }
    {
        let count = self.count(node);
        self.take(node, counted_round(pick, count))
    }

    // Takes the message for the node that has `ahead` others for it before it, if there is one.
    #[tactic(auto, using(crate::proofs::Places::within))]
    fn take(&mut self, node: u8, ahead: usize) -> Option<Message>
        ensures waiting { Reaches (lanes self.old node) ahead → Gives queued limit_of self.old node result self.new }
        ensures choice { Given self.old node ahead result self.new }
    {
        let place = self.place(node, ahead)?;
        Some(self.remove(place))
    }

    // Takes out the message at a place; those behind it move up.
    fn remove(&mut self, at: usize) -> Message
        requires { at < length (queued self.old) }
        ensures message { slice_get (queued self.old) at ≡ Some result }
        ensures rest { queued self.new ≡ remove (queued self.old) at }
        ensures room { limit_of self.new ≡ limit_of self.old }
    {
        self.messages.take_out(at).unwrap()
    }
}

// A number of a row of `count`, which goes round.
fn counted_round(pick: u8, count: usize) -> usize
    ensures number { result ≡ pick % count }
    ensures within { count ≤ result → count ≡ 0 }
{
    let pick = usize::from(pick);
    if count == 0 { pick } else { pick % count }
}
