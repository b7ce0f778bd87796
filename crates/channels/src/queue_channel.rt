// A channel whose messages wait in a queue: C says how many can, and which of those for a node is given.
ghost use Rattle.std.specs.Prelude.{◌≡◌, []};
ghost use Rattle.model.specs.Channels.{Puts, Takes};
ghost use Rattle.queue.specs.Queues.{PutsLast};
ghost use Rattle.channels.specs.Channels.{channel_waiting, channel_capacity, TakesChosen};
ghost use Rattle.queue.proofs.Held.{roomy, within_limit};

use crate::choice::Choice;
use model::{Channel, Message, Refusal, ask};
use queue::Queue;
use std::marker::PhantomData;

#[derive(Clone, Copy)]
pub struct QueueChannel<C> {
    queue: Queue,
    choice: PhantomData<C>,
}

impl<C: Choice> QueueChannel<C> {
    pub fn new() -> QueueChannel<C>
        ensures waiting { channel_waiting result ≡ [] }
        ensures capacity { channel_capacity result ≡ C.LIMIT }
    {
        QueueChannel {
            queue: Queue::new(C::LIMIT),
            choice: PhantomData,
        }
    }
}

impl<C: Choice> Channel for QueueChannel<C> {
    ghost waiting = { channel_waiting };

    ghost capacity = { channel_capacity };

    ghost roomy = { λ s. roomy s.queue };

    ghost held = { λ s. within_limit s.queue };

    fn capacity(&self) -> u16 {
        self.queue.limit()
    }

    fn clear(&mut self) {
        self.queue.clear();
    }

    fn put(&mut self, message: Message) -> Result<(), Refusal>
        ensures waiting { Puts channel_waiting channel_capacity self.old message result self.new }
        ensures choice { PutsLast self.old.queue message result self.new.queue }
    {
        self.queue.put(message)
    }

    fn take(&mut self, node: u8, pick: u8) -> Result<Option<Message>, Refusal>
        ensures waiting { Takes channel_waiting channel_capacity self.old node result self.new }
        ensures choice { TakesChosen C.number self.old node pick result self.new }
    {
        ask(node < 16, Refusal::NoSuchNode)?;
        Ok(C::choose(&mut self.queue, node, pick))
    }
}
