//! What the lines of a schedule ask for.
use crate::body::Body;

/// What a line asks for.
#[derive(Debug, Drop)]
pub enum Request {
    /// Nothing: a comment or a line without words.
    Nothing,
    /// Make a ring of `2^log2` slots for so many senders.
    Ring { log2: u32, senders: u32 },
    /// A step of the ring. If the line has a COUNT, a test's answer tells how many are ready.
    Step { asked: Asked, is_counted: bool },
}

/// A step of the ring: ringcore's `Step` without its kilobyte. Slots are places in the ring, halves are 0 (lo) and 1
/// (hi), and counts are of 1 to 64 slots in a row.
#[derive(Debug, Drop)]
pub enum Asked {
    /// Look at the control word, as a sender, or as the consumer if none is named.
    Look {
        who: Option<u32>,
    },
    /// Reserve commands, with a closing sync or without, as a sender.
    Reserve {
        sender: u32,
        body: Body,
        closes: bool,
    },
    /// Write a half of a slot, as a sender.
    Write {
        sender: u32,
        slot: u32,
        half: u32,
    },
    /// Flip the flags of `count` slots from this one on, as a sender.
    Flip {
        sender: u32,
        slot: u32,
        count: u32,
    },
    /// Test the head, at most `count` flags.
    Test {
        slot: u32,
        count: u32,
    },
    /// Read a half of a slot, as the consumer.
    Read {
        slot: u32,
        half: u32,
    },
    /// Take `count` commands, as the consumer.
    Advance {
        count: u32,
    },
    /// Close the ring, as a sender.
    Close {
        sender: u32,
    },
    /// Store a closing sync's number in its sender's completion cell, as the consumer.
    Acknowledge {
        sender: u32,
        number: u32,
    },
    /// Load its own completion cell, as a sender.
    Ask {
        sender: u32,
    },
}
