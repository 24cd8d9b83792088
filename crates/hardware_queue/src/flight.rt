//! What was taken from the ring and isn't settled.
ghost use Rattle.std.specs.Prelude.{◌≡◌, ◌<◌, ◌≤◌, ◌+◌, ◌-◌, ◌^◌, [], ◌∷◌, ◌++◌, length, map, take, drop, slice_get, IfOk};
ghost use Rattle.circular_buffer.specs.Buffer.{buffer};
ghost use Rattle.ringcore.specs.declared.world.event.Outcome.TheVariants.{Applied};
ghost use Rattle.ring.specs.consumer.Completing.{HasOutcome};
ghost use Rattle.hardware_queue.specs.Kept.{in_flight};

use circular_buffer::HeapCircularBuffer;
use cmdcodec::Raw;
use ring::{DeferringConsumer, Device, Outcome};
use std::alloc::{AllocError, Global};
use std::marker::Model;

/// A command that was taken, and its outcome in the ring: `Applied` if the hardware was shown it, and `Replaced` if not,
/// since it is illegal.
#[derive(Clone, Copy, Debug, PartialEq, Eq)]
pub struct InFlight {
    pub raw: Raw,
    pub outcome: Outcome,
}

/// What was taken and isn't settled, the oldest first. Memory for all that fits is taken once.
#[derive(Drop)]
pub struct Flight {
    kept: HeapCircularBuffer<InFlight>,
}

impl Model for Flight {
    ghost use Rattle.std.specs.Prelude.{◌≤◌, ◌^◌};
    ghost use Rattle.circular_buffer.specs.Buffer.{Buffer};
    ghost use Rattle.hardware_queue.specs.declared.flight.InFlight.{InFlight as InFlightOf};

    ghost Value = { Buffer InFlightOf };

    ghost view = { λ f. f.kept };

    ghost invariant = { λ f. f.kept.capacity ≤ 2 ^ 20 };
}

impl Flight {
    pub fn new(alloc: Global, slots: u32) -> Result<Flight, AllocError>
        requires { slots ≤ 2 ^ 20 }
        ensures { IfOk result (λ f. f ≡ buffer [] slots) }
    {
        let kept = HeapCircularBuffer::with_capacity(alloc, slots as usize)?;
        Ok(Flight { kept })
    }

    /// Returns how many commands are in flight.
    pub fn len(&self) -> u32
        ensures { result ≡ length self.now.items }
    {
        self.kept.len() as u32
    }

    /// Returns how many more fit.
    pub fn room(&self) -> u32
        ensures value { result ≡ self.now.capacity - length self.now.items }
        ensures within { length self.now.items ≤ self.now.capacity }
    {
        (self.kept.capacity() - self.kept.len()) as u32
    }

    /// Returns the oldest.
    pub fn front(&self) -> Option<InFlight>
        ensures { result ≡ slice_get self.now.items 0 }
    {
        self.kept.front().copied()
    }

    /// Adds a command as the newest.
    pub fn push(&mut self, command: InFlight)
        requires { length self.old.items < self.old.capacity }
        ensures { self.new ≡ buffer (self.old.items ++ command ∷ []) self.old.capacity }
    {
        let _oldest = self.kept.push_back(command);
    }

    /// Removes the oldest.
    pub fn pop(&mut self)
        ensures { self.new ≡ buffer (drop 1 self.old.items) self.old.capacity }
    {
        let _oldest = self.kept.pop_front();
    }

    /// Adds the first `count` of a run, which are legal.
    pub fn push_run<D: Device>(&mut self, consumer: &DeferringConsumer<D>, count: u32)
        requires count { count ≤ length consumer.now.raws }
        requires room { length self.old.items + count ≤ self.old.capacity }
        requires legal { HasOutcome Applied (take count consumer.now.raws) }
        ensures { self.new
            ≡ buffer (self.old.items ++ map in_flight (take count consumer.now.raws))
            self.old.capacity }
    {
        for place in 0..count {
            let raw = consumer.get(place).unwrap();
            let outcome = Outcome::Applied;
            self.push(InFlight { raw, outcome });
        }
    }
}
