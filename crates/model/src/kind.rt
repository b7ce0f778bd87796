// What a message says, with what it carries. A kind has a number.
use crate::reference::Reference;

#[derive(Clone, Copy)]
pub enum Kind {
    // node 0 opens a round, and the others answer it
    Open,
    Opened,
    // marking starts; a cell of the receiver is marked
    Start,
    Mark(Reference),
    // a reference for a register of the receiver, and its acknowledgement
    Ref {
        reference: Reference,
        register: u8,
        stamp: u8,
    },
    RefAck {
        stamp: u8,
    },
    // the receiver reclaims its cells, and answers how many it freed and kept
    Sweep,
    Swept {
        freed: u8,
        kept: u8,
    },
}

mod numbers;
