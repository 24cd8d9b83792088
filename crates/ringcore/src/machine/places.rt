//! Which commands a write and a flip are for.
ghost use Rattle.std.specs.Prelude.{◌≡◌, ◌+◌, ◌<◌, ◌≤◌, ◌&&◌, Some, IfOk, IfErr};
ghost use Rattle.qindex.specs.Positions.{index_of};
ghost use Rattle.ringcore.specs.declared.machine.step.Step.TheVariants.{Write, Flip};
ghost use Rattle.ringcore.specs.world.World.{half_of};
ghost use Rattle.ringcore.specs.machine.Open.{own_offset};
ghost use Rattle.ringcore.specs.machine.Faults.{foreign, has_sender, has_slot, is_run_length, share_a_word};
ghost use Rattle.ringcore.specs.machine.StepAnswers.{half_of_number};
ghost use Rattle.ringcore.specs.machine.Core.{ring_of, HasNoFault, IsRefused};

use crate::machine::held::{positions_are_held, slot_is_held, slots_are_held};
use crate::machine::{Core, StepFault};
use crate::memory::shared_word;
use crate::world::Half;
use cmdcodec::Raw;
use qindex::{Geometry, Index};

/// The fault of a slot that isn't the sender's own, by whether other reservations hold it.
fn foreign(is_held: bool) -> StepFault
    ensures { Some result ≡ foreign is_held }
{
    if is_held {
        StepFault::AnotherSenders
    } else {
        StepFault::NotReserved
    }
}

/// The index of a position.
pub fn index_of(geometry: Geometry, position: u64) -> Index
    ensures { result ≡ index_of geometry position }
{
    let number = position % u64::from(2 * geometry.size());
    Index::new(geometry, number as u32).unwrap()
}

/// The half with this number: 0 is lo, any other is hi.
pub(crate) fn half_of_number(half: u32) -> Half
    ensures { result ≡ half_of_number half }
{
    if half == 0 { Half::Lo } else { Half::Hi }
}

/// A word of a command.
pub(crate) fn half_of(half: Half, raw: Raw) -> u64
    ensures { result ≡ half_of half raw }
{
    match half {
        Half::Lo => raw.lo,
        Half::Hi => raw.hi,
    }
}

impl Core {
    /// Returns the offset of a slot in the sender's reservation, if this half of it may be written.
    pub(super) fn write_offset(&self, sender: u32, slot: u32, half: u32) -> Result<u32, StepFault>
        ensures there { IfOk result (λ offset. sender < self.now.words.senders) }
        ensures few { IfOk result (λ offset. offset < 64) }
        ensures accepted { IfOk result (λ offset. HasNoFault self.now (Write sender slot half) (λ run. own_offset (ring_of self.now) run sender slot ≡ Some offset)) }
        ensures refused { IfErr result (λ fault. IsRefused self.now (Write sender slot half) fault) }
    {
        let geometry = self.words.geometry();
        if sender as usize >= self.senders.len() || slot >= geometry.size() || half >= 2 {
            return Err(StepFault::NoSuchPlace);
        }
        let view = &self.senders[sender as usize];
        let Some(offset) = view.offset_of(geometry, slot) else {
            return Err(foreign(slot_is_held(self.senders.as_slice(), geometry, slot)));
        };
        if view.any_flipped(offset, 1) {
            return Err(StepFault::Flipped);
        }
        Ok(offset)
    }

    /// Whether the sender exists, and `count` slots from this one on whose flags share a flag word.
    fn has_run(&self, sender: u32, slot: u32, count: u32) -> bool
        ensures { result ≡ (has_sender (ring_of self.now) sender && has_slot (ring_of self.now) slot && is_run_length count && share_a_word (ring_of self.now) slot count) }
    {
        let geometry = self.words.geometry();
        if sender as usize >= self.senders.len()
            || slot >= geometry.size()
            || count < 1
            || count > 64
        {
            return false;
        }
        count <= shared_word(index_of(geometry, u64::from(slot)))
    }

    /// Returns the offset of a slot in the sender's reservation, if the flags of `count` slots from it on may
    /// be flipped.
    pub(super) fn flip_offset(&self, sender: u32, slot: u32, count: u32) -> Result<u32, StepFault>
        ensures there { IfOk result (λ offset. sender < self.now.words.senders) }
        ensures few { IfOk result (λ offset. offset + count ≤ 64) }
        ensures accepted { IfOk result (λ offset. HasNoFault self.now (Flip sender slot count) (λ run. own_offset (ring_of self.now) run sender slot ≡ Some offset)) }
        ensures refused { IfErr result (λ fault. IsRefused self.now (Flip sender slot count) fault) }
    {
        if !self.has_run(sender, slot, count) {
            return Err(StepFault::NoSuchPlace);
        }
        let geometry = self.words.geometry();
        let view = &self.senders[sender as usize];
        let Some(offset) = view.offset_of(geometry, slot) else {
            return Err(foreign(slots_are_held(self.senders.as_slice(), geometry, slot, count)));
        };
        if offset + count > view.len() {
            let first = view.start() + u64::from(offset);
            return Err(foreign(positions_are_held(self.senders.as_slice(), first, count)));
        }
        if view.any_flipped(offset, count) {
            return Err(StepFault::Flipped);
        }
        if !view.all_written(offset, count) {
            return Err(StepFault::HalfMissing);
        }
        Ok(offset)
    }
}
