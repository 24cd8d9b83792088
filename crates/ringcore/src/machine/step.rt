//! The steps that a seat may request, by slots, and their answers.
use cmdcodec::RawList;
use qindex::{Control, Index};

/// One atomic step, before it is known what it finds. Slots are places in the ring, halves are 0 (lo) and 1
/// (hi), and counts are of 1 to 64 slots in a row.
#[derive(Debug, Drop)]
pub enum Step {
    /// A look at the control word, by a sender, or by the consumer if none is named.
    Look {
        who: Option<u32>,
    },
    /// An exchange of the control word, to reserve these commands, with or without a closing sync after them.
    Reserve {
        sender: u32,
        body: RawList,
        closes: bool,
    },
    /// A store of this half of the command that the sender's reservation has for this slot.
    Write {
        sender: u32,
        slot: u32,
        half: u32,
    },
    /// An exclusive or of a flag word, for `count` slots from this one on.
    Flip {
        sender: u32,
        slot: u32,
        count: u32,
    },
    /// A load of the head's flag word, which looks at `count` flags at most.
    Test {
        slot: u32,
        count: u32,
    },
    /// A load of a data word.
    Read {
        slot: u32,
        half: u32,
    },
    /// An exclusive or of the control word, to take `count` commands.
    Advance {
        count: u32,
    },
    /// An or of the control word with the closed bit.
    Close {
        sender: u32,
    },
    /// A store of a closing sync's number into its sender's completion cell.
    Acknowledge {
        sender: u32,
        number: u32,
    },
    /// A load of a sender's completion cell.
    Ask {
        sender: u32,
    },
}

/// The answer to a step.
#[derive(Clone, Copy, Debug, PartialEq, Eq)]
pub enum Seen {
    /// The control word, as a look found it, or as it is after an advance or a close.
    Word(Control),
    /// A reservation was won: the index of its first slot, and the number of its closing sync, if it has one.
    Reserved { first: Index, number: Option<u32> },
    /// The exchange found this control word and not the one looked at.
    Lost(Control),
    /// The word is written.
    Written,
    /// The new flags, that of the first slot in bit 0.
    Flipped(u64),
    /// How many slots in a row are ready.
    Ready(u32),
    /// The data word.
    Half(u64),
    /// The number is stored.
    Acknowledged,
    /// The number in the cell.
    Done(u32),
}
