// What sets a channel apart: how many messages can wait, and which of those for a node is given.
ghost use Rattle.std.specs.Prelude.{ℕ, ◌%◌, ◌≤◌, length};
ghost use Rattle.std.proofs.Common.{lit≤};
ghost use Rattle.model.specs.Channels.{Gives};
ghost use Rattle.queue.specs.Queues.{queued, limit_of, lanes, Given};

use model::Message;
use queue::Queue;

pub trait Choice {
    const LIMIT: u16;

    ghost LIMIT: { ℕ };

    // the number of the message in its node's lane, by the pick and how many stand there
    ghost number: { ℕ → ℕ → ℕ };

    // Takes the message for the node that is given, if one waits.
    fn choose(queue: &mut Queue, node: u8, pick: u8) -> Option<Message>
        ensures waiting { Gives queued limit_of queue.old node result queue.new }
        ensures choice { Given queue.old node (number pick (length (lanes queue.old node))) result queue.new };

    ghost some: { 1 ≤ LIMIT };

    ghost few: { LIMIT ≤ 256 };
}

// The message that waits longest.
#[derive(Clone, Copy)]
pub struct Oldest;

impl Choice for Oldest {
    const LIMIT: u16 = 256;

    ghost LIMIT = { 256 };

    ghost number = { λ pick count. 0 };

    ghost some = { lit≤ tt };

    ghost few = { lit≤ tt };

    fn choose(queue: &mut Queue, node: u8, _pick: u8) -> Option<Message> {
        queue.oldest(node)
    }
}

// The message that the pick names, counted round.
#[derive(Clone, Copy)]
pub struct Picked;

impl Choice for Picked {
    const LIMIT: u16 = 64;

    ghost LIMIT = { 64 };

    ghost number = { λ pick count. pick % count };

    ghost some = { lit≤ tt };

    ghost few = { lit≤ tt };

    fn choose(queue: &mut Queue, node: u8, pick: u8) -> Option<Message> {
        queue.pick(node, pick)
    }
}
