//! The entries that the caches hold before any batch.
ghost use Rattle.std.specs.Prelude.{◌≡◌, ◌<◌, ◌≤◌, [], OnErr, IfOk, Err};
ghost use Rattle.std.specs.FinMap as finite;
ghost use Rattle.engine.specs.Counting.{none_counted};
ghost use Rattle.stress.specs.FirstEntries.{tag_of, IsFilled};

use crate::fault::StressFault;
use caches::{Caches, Scope, Tag};
use cmdcodec::{Asid, Page, Vmid};
use engine::{Engine, Unit};
use ring::Consumer;
use std::alloc::Global;

/// How many entries the caches may hold: more than there are senders.
const CAPACITY: u32 = 256;

/// The tag of the entry that the first command of a sender covers.
fn first_tag(sender: u32) -> Tag
    requires { sender < 64 }
    ensures { result ≡ tag_of sender }
{
    Tag::S1 {
        vmid: Vmid::new(u64::from(sender)).unwrap(),
        scope: Scope::Of(Asid::new(0).unwrap()),
        page: Page::new(1).unwrap(),
        span: 0,
    }
}

/// Returns an engine whose caches hold an entry for each sender.
///
/// Errors: S1.
pub(crate) fn filled_engine(
    alloc: Global,
    consumer: Consumer<Unit>,
    senders: u32,
) -> Result<Engine, StressFault>
    requires new { consumer.trail ≡ [] }
    requires few { senders ≤ 64 }
    ensures filled { IfOk result (λ engine. IsFilled senders engine.unit) }
    ensures consumer { IfOk result (λ engine. engine.consumer ≡ consumer) }
    ensures err { OnErr result (result ≡ Err StressFault.NoMemory) }
{
    let Ok(caches) = Caches::new(alloc, CAPACITY) else {
        return Err(StressFault::NoMemory);
    };
    let mut engine = Engine::new(consumer, caches);
    for sender in 0..senders {
        // With a new tag, a whole block and room, the only fault is being out of memory.
        if engine.fill(first_tag(sender), u64::from(sender)).is_err() {
            return Err(StressFault::NoMemory);
        }
    }
    Ok(engine)
}
