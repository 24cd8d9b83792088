//! The atomic steps of a ring, each with what it found.
use cmdcodec::Raw;
use qindex::Control;
use std::collections::LinkedList;

/// Whose step it is.
pub enum Who {
    /// The SMMU, which takes the commands.
    Consumer,
    /// The sender with this number.
    Sender(u32),
}

/// A word of a command.
#[derive(Clone, Copy, Debug, PartialEq, Eq)]
pub enum Half {
    /// The low word.
    Lo,
    /// The high word.
    Hi,
}

/// How a command was taken.
#[derive(Clone, Copy, Debug, PartialEq, Eq)]
pub enum Outcome {
    /// A legal command, with its effect.
    Applied,
    /// An illegal command, without effect (own).
    Replaced,
}

/// One atomic step, with what it found.
pub enum Event {
    /// Either side looked at the control word.
    Look(Control),
    /// A sender exchanged the control word that it had looked at, and reserved a batch: this body, followed
    /// by the closing sync with this number, if there is one.
    Won {
        body: LinkedList<Raw>,
        number: Option<u32>,
    },
    /// A sender found a control word other than the one that it had looked at, and reserved nothing.
    Lost {
        body: LinkedList<Raw>,
        closes: bool,
        found: Control,
    },
    /// A sender wrote half of the command at this offset of its open reservation.
    Write {
        offset: u64,
        half: Half,
    },
    /// A sender flipped the flags of `count` commands, from this offset of its open reservation on.
    Flip {
        offset: u64,
        count: u64,
    },
    /// The consumer tested the flags from the head on, up to `limit`, and found `found` flipped in a row.
    Test {
        limit: u64,
        found: u64,
    },
    /// The consumer read half of the command at this offset from the head.
    Read {
        offset: u64,
        half: Half,
        word: u64,
    },
    /// The consumer took these commands.
    Advance(LinkedList<Raw>),
    /// A sender closed the queue.
    Close,
    /// The consumer stored the number of a closing sync in its sender's completion cell.
    Acknowledge {
        sender: u32,
        number: u32,
    },
    /// A sender found this number in its completion cell.
    Ask(u32),
}
