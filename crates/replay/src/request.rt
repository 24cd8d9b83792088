//! What the lines of a replay ask for.
ghost use Rattle.std.specs.Prelude.{◌≡◌, List};
ghost use Rattle.cmdcodec.specs.declared.raw.Raw.{Raw};

use caches::Tag;
use cmdcodec::{Asid, Page, Raw, Sid, Vmid};
use engine::Remedy;
use simulator::Shape;
use std::marker::Model;

/// What a line asks for.
#[derive(Drop)]
pub(crate) enum Request {
    /// Nothing: a comment or a line without words.
    Nothing,
    /// Make the ring, its senders and the unit.
    Ring(Shape),
    /// Put an entry into the caches.
    Fill { tag: Tag, value: u64 },
    /// Remove the entry of a tag.
    Evict { tag: Tag },
    /// Tell the entry of a tag.
    Lookup { tag: Tag },
    /// Send a batch, or only reserve it.
    Send(Sending),
    /// Publish what a sender reserved.
    Publish { sender: u32 },
    /// Let the unit take at most `count` commands.
    Step { count: u64 },
    /// Acknowledge an error stop, as software, with this SMMU_GERRORN.
    Acknowledge { gerrorn: u32, remedy: Remedy },
    /// Tell up to which batch a sender's commands are done.
    Done { sender: u32 },
    /// Tell what a sender sees of the ring.
    Look { sender: u32 },
    /// Close the ring, as a sender.
    Close { sender: u32 },
    /// Tell the registers, the totals and the entries.
    Dump,
}

/// A batch for a sender to send, or only to reserve.
#[derive(Drop)]
pub(crate) struct Sending {
    pub sender: u32,
    pub content: Content,
    /// Whether the ring's own CMD_SYNC closes it.
    pub closes: bool,
    /// Whether it is published at once.
    pub publishes: bool,
}

/// The commands of a batch, without its closing CMD_SYNC.
#[derive(Drop)]
pub(crate) enum Content {
    /// Those of the line, legal or not.
    Commands(Body),
    /// Those that invalidate a run of pages of one address space.
    Range {
        vmid: Vmid,
        asid: Asid,
        page: Page,
        pages: u64,
    },
    /// Those that detach a stream.
    Detach {
        sid: Sid,
    },
}

/// Commands, in order.
#[derive(Drop)]
pub(crate) struct Body {
    raws: Vec<Raw>,
}

impl Model for Body {
    ghost Value = { List Raw };

    ghost view = { λ body. body.raws.items };
}

impl Body {
    pub(crate) fn new(raws: Vec<Raw>) -> Body
        ensures { result ≡ raws.items }
    {
        Body { raws }
    }

    /// Returns the commands, in order.
    pub(crate) fn as_slice(&self) -> &[Raw]
        ensures { result.now ≡ self.now }
    {
        self.raws.as_slice()
    }
}
