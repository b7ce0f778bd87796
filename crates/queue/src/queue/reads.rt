// Making a queue and reading it.
ghost use Rattle.std.specs.Prelude.{◌≡◌, min, max, [], length, nat_lt};
ghost use Rattle.queue.specs.Queues.{queued, limit_of, lanes, place_of};

use super::Queue;
use model::{Kind, Message};
use short_list::ShortList;

impl Queue {
    // No message waits. The limit is at least 1 and at most 256.
    pub fn new(limit: u16) -> Queue
        ensures waiting { queued result ≡ [] }
        ensures limit { limit_of result ≡ max 1 (min limit 256) }
    {
        Queue {
            messages: ShortList::filled(filler()),
            limit: limit.clamp(1, 256),
        }
    }

    // How many messages can wait.
    pub fn limit(&self) -> u16
        ensures { result ≡ limit_of self.now }
    {
        self.limit
    }

    // All messages, the one that waits longest first.
    pub fn waiting(&self) -> &[Message]
        ensures { result.now ≡ queued self.now }
    {
        self.messages.items()
    }

    pub(super) fn has_room(&self) -> bool
        ensures { result ≡ nat_lt (length (queued self.now)) (limit_of self.now) }
    {
        self.waiting().len() < usize::from(self.limit)
    }

    // How many messages wait for the node. A loop: by a filter and a count it took up to half as long again.
    #[tactic(auto, using(crate::proofs::Lanes::lane_more, crate::proofs::Lanes::lane_whole))]
    pub fn count(&self, node: u8) -> usize
        ensures { result ≡ length (lanes self.now node) }
    {
        let mut count = 0;
        for message in self.waiting() {
            if message.to() == node {
                count += 1;
            }
        }
        count
    }

    // Where the message for the node stands that has `ahead` others for it before it.
    pub(super) fn place(&self, node: u8, ahead: usize) -> Option<usize>
        ensures { result ≡ place_of node (queued self.now) ahead }
    {
        self.waiting()
            .iter()
            .enumerate()
            .filter(|(_, message)| message.to() == node)
            .nth(ahead)
            .map(|(at, _)| at)
    }
}

// What lies where no message waits.
fn filler() -> Message {
    Message::new(0, 1, Kind::Open).unwrap()
}
