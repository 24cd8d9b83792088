//! Queues of two senders, in their parts.
ghost use Rattle.std.specs.Prelude.{◌≡◌, []};
ghost use Rattle.renewal.specs.Queues.{IsWhole};

use batch::Batch;
use caches::{Caches, Scope, Tag};
use cmdcodec::{Asid, Page, Raw, Vmid};
use engine::{Engine, Finished};
use renewal::{Queue, RenewalFault, Sizes, renew};
use ring::{Ring, RingFault, Sender};
use std::alloc::Global;
use std::process::Abort;

/// A queue of two senders. The spare list holds none, and has room for both.
#[derive(Drop)]
pub struct Pair {
    pub ring: Ring,
    pub first: Sender,
    pub second: Sender,
    pub spare: Vec<Sender>,
    pub engine: Engine,
    ghost two: { ring.made_with.senders ≡ 2 },
    ghost first_ring: { first.ring ≡ ring },
    ghost first_number: { first.number ≡ 0 },
    ghost second_ring: { second.ring ≡ ring },
    ghost second_number: { second.number ≡ 1 },
    ghost none_spare: { spare.items ≡ [] },
    ghost engine_ring: { engine.consumer.ring ≡ ring },
}

/// Parses a word as a batch: the invalidation of this page in address space 2 of virtual machine 1, or `illegal`.
pub fn batch_of(word: &str) -> Option<Batch> {
    if word == "illegal" {
        return Batch::new(Raw { lo: 0xff, hi: 0 }).ok();
    }
    let page = Page::new(word.parse().ok()?)?;
    Batch::range(Vmid::new(1)?, Asid::new(2)?, page, 1).ok()
}

/// The tag of that page's translation.
pub fn translation(page: u64) -> Option<Tag> {
    let vmid = Vmid::new(1)?;
    let scope = Scope::Of(Asid::new(2)?);
    let page = Page::new(page)?;
    Some(Tag::S1 {
        vmid,
        scope,
        page,
        span: 0,
    })
}

/// A queue of two senders, each of which may reserve `max_batches` batches, with room for 8 entries.
pub fn new_pair(alloc: Global, max_batches: u32) -> Result<Pair, RingFault> {
    let (ring, mut spare, consumer) = Ring::new(alloc, 4, 2, max_batches)?;
    let second = spare.pop().unwrap();
    let first = spare.pop().unwrap();
    let caches = Caches::new(alloc, 8).unwrap();
    let engine = Engine::new(consumer, caches);
    Ok(Pair {
        ring,
        first,
        second,
        spare,
        engine,
    })
}

/// The queue of these parts.
fn queue_of(rt: &impl Abort, pair: Pair) -> Queue
    ensures { IsWhole result }
{
    let Pair {
        ring,
        first,
        second,
        mut spare,
        engine,
    } = pair;
    spare.push(first).expect(rt, "room for both");
    spare.push(second).expect(rt, "room for both");
    Queue {
        ring,
        senders: spare,
        engine,
    }
}

/// The parts of a queue, if it has two senders.
fn pair_of(queue: Queue) -> Option<Pair>
    requires { IsWhole queue }
{
    let Queue {
        ring,
        mut senders,
        engine,
    } = queue;
    if senders.len() != 2 {
        return None;
    }
    let second = senders.pop().unwrap();
    let first = senders.pop().unwrap();
    Some(Pair {
        ring,
        first,
        second,
        spare: senders,
        engine,
    })
}

/// Renews a queue of two. Returns the parts of the queue that goes on, and what is left of the old one, or why it isn't
/// renewed.
pub fn renewed(
    rt: &impl Abort,
    alloc: Global,
    pair: Pair,
    sizes: Sizes,
) -> (Pair, Result<Finished, RenewalFault>) {
    // The theorem isn't passed on, since it would be costly in each test.
    let (queue, told) = match renew(alloc, queue_of(rt, pair), sizes) {
        Ok(renewed) => (renewed.queue, Ok(renewed.old)),
        Err(refused) => (refused.queue, Err(refused.fault)),
    };
    (pair_of(queue).expect(rt, "two senders"), told)
}
