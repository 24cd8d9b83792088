//! A consumer of the caller's own with its share of its ring.
ghost use Rattle.std.specs.Prelude.{◌≡◌, ◌≤◌, ◌++◌, length, drop};
ghost use Rattle.std.specs.Arc.{arc_value};
ghost use Rattle.ring.specs.consumer.PendingConsumers.{with_none};
ghost use Rattle.smmuq_c.specs.Taking.{HasTakenRun, HasCompletedFor};

use crate::status::Status;
use cmdcodec::Raw;
use ring::{Consumer, Device, Found, Outcome, PendingConsumer, Ring, Uncompleted};
use std::marker::Model;
use std::sync::Arc;

/// What gives the commands their effect: hardware or a queue of the caller's, of which nothing is known here. The
/// caller must see to it that they have had their effect before they are completed.
#[derive(Drop)]
pub(crate) struct CallersDevice;

impl Device for CallersDevice {
    ghost use Rattle.std.specs.Prelude.{⊤};

    ghost settled = { λ device taken. ⊤ };
}

/// A consumer with its ring.
#[derive(Drop)]
pub(crate) struct SeatedConsumer {
    ring: Arc<Ring>,
    pending: PendingConsumer<CallersDevice>,
}

impl Model for SeatedConsumer {
    ghost use Rattle.std.specs.Prelude.{◌≡◌};
    ghost use Rattle.std.specs.Arc.{arc_value};
    ghost use Rattle.smmuq_c.specs.HeldConsumers.{HeldConsumer};

    ghost Value = { HeldConsumer };

    ghost view = { λ s. s.pending };

    ghost invariant = { λ s. s.pending.consumer.ring ≡ arc_value s.ring };
}

impl SeatedConsumer {
    pub(crate) fn new(ring: Arc<Ring>, consumer: Consumer<CallersDevice>) -> SeatedConsumer
        requires { consumer.ring ≡ arc_value ring }
        ensures { result ≡ with_none consumer }
    {
        SeatedConsumer {
            ring,
            pending: PendingConsumer::new(consumer),
        }
    }

    /// Tells the commands that are ready from the ring's head on, as many as the buffer has room for, up to 64.
    pub(crate) fn take_run(&mut self, buffer: &mut [Raw], count: &mut usize) -> Status
        ensures { HasTakenRun buffer.old buffer.new count.new self.old self.new result }
    {
        let SeatedConsumer { ring, pending } = self;
        *count = 0;
        if buffer.is_empty() {
            pending.put_back();
            return Status::ShortBuffer;
        }
        let most = buffer.len().min(64) as u32;
        match pending.take_run(ring, most) {
            Found::Empty => Status::RingEmpty,
            Found::Drained => Status::RingDrained,
            Found::Unwritten => Status::RingUnwritten,
            Found::Ready => {
                *count = tell(pending, buffer);
                Status::Done
            }
        }
    }

    /// Completes the first `count` of the commands that it told last.
    pub(crate) fn complete(&mut self, count: usize) -> Status
        ensures { HasCompletedFor count self.old self.new result }
    {
        let SeatedConsumer { ring, pending } = self;
        if count > pending.len() as usize {
            return Status::BadField;
        }
        match pending.complete(ring, count as u32, &CallersDevice) {
            Ok(Outcome::Applied) => Status::Done,
            Ok(Outcome::Replaced) => Status::Replaced,
            Err(Uncompleted::Count) => Status::BadField,
            Err(Uncompleted::Illegal(ill)) => Status::Illegal(ill),
        }
    }
}

/// Writes the pending commands to a buffer, and returns how many they are.
fn tell(pending: &PendingConsumer<CallersDevice>, buffer: &mut [Raw]) -> usize
    requires room { length pending.now.raws ≤ length buffer.old }
    ensures count { result ≡ length pending.now.raws }
    ensures told { buffer.new ≡ pending.now.raws ++ drop (length pending.now.raws) buffer.old }
{
    let count = pending.len() as usize;
    for place in 0..count {
        buffer[place] = pending.get(place as u32).unwrap();
    }
    count
}
