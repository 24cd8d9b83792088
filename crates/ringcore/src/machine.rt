//! The ring with one owner: its words, and what each seat knows.
ghost use Rattle.std.specs.Prelude.{◌≡◌, ◌<◌, ◌≤◌, [], length, IfOk, IfErr, OnErr, MatchOption};
ghost use Rattle.qindex.specs.ControlWord.{IsControl};
ghost use Rattle.ringcore.specs.Limits.{most_senders};
ghost use Rattle.ringcore.specs.world.Trails.{Run};
ghost use Rattle.ringcore.specs.world.World.{world, control};
ghost use Rattle.ringcore.specs.world.Delivery.{IsOrderedDelivery};
ghost use Rattle.ringcore.specs.RingFaults.{IsNotMade};
ghost use Rattle.ringcore.specs.machine.SenderViews.{Knows};
ghost use Rattle.ringcore.specs.machine.Played.{played};
ghost use Rattle.ringcore.specs.machine.Core.{ring_of, ring_with, AllKnow, AfterEachRun, StandsAfter, IsTaken, IsRefused, IsTakenOrRefused, IsNew, core_fault, HasPlayed};

use crate::memory::{RingWords, laws as word_laws};
use crate::ring_fault::{RingFault, ring_geometry};
use crate::world::laws::world_law;
use cmdcodec::MOST_BATCHES;
use qindex::{Control, Geometry, control_words_say_their_control, indexes_tell_the_queue};
use std::alloc::{AllocError, Global};
use std::marker::Model;

mod commands;
mod consumer_steps;
mod consumer_view;
mod held;
pub mod laws;
mod places;
mod sender_steps;
mod sender_view;
mod slot_offset;
mod step;
mod step_fault;
mod sync_tallies;

pub use commands::batch_commands;
pub use consumer_view::ConsumerView;
pub use places::index_of;
pub use sender_view::SenderView;
pub use step::{Seen, Step};
pub use step_fault::StepFault;
pub use sync_tallies::SyncTallies;

/// A ring with one owner, who takes every step: the words, and what each seat knows (own).
#[derive(Drop)]
pub struct Core {
    words: RingWords,
    senders: Vec<SenderView>,
    consumer: ConsumerView,
    tallies: SyncTallies,
}

impl Model for Core {
    ghost use Rattle.ringcore.specs.world.Delivery.{IsOrderedDelivery};
    ghost use Rattle.ringcore.specs.machine.Played.{played};
    ghost use Rattle.ringcore.specs.machine.Core.{CoreValue, core_of, IsMachine};

    ghost Value = { CoreValue };

    ghost view = { core_of };

    ghost invariant = { λ core. IsMachine (core_of core) };
}

impl Core {
    /// Creates a ring of `2^log2` slots for this many senders.
    ///
    /// Errors: N1 if log2 isn't 1 to 19, N2 if senders isn't 1 to 256, N4 if memory runs out.
    pub fn new(alloc: Global, log2: u32, senders: u32) -> Result<Core, RingFault>
        ensures made { IfOk result (λ core. IsNew core log2 senders) }
        ensures refused { IfErr result (λ fault. IsNotMade (core_fault log2 senders) fault) }
    {
        let geometry = ring_geometry(log2, senders, MOST_BATCHES)?;
        match Core::open(alloc, geometry, senders) {
            Ok(core) => Ok(core),
            Err(error) => Err(RingFault::Memory(error)),
        }
    }

    /// Makes a machine before its first step.
    fn open(alloc: Global, geometry: Geometry, senders: u32) -> Result<Core, AllocError>
        requires { senders ≤ most_senders }
        ensures { IfOk result (λ core. (ring_of core ≡ ring_with geometry senders) × StandsAfter core []) }
    {
        word_laws::begin();
        Ok(Core {
            words: RingWords::new(alloc, geometry, senders)?,
            senders: new_views(alloc, senders)?,
            consumer: ConsumerView::new(),
            tallies: SyncTallies::new(alloc, senders)?,
        })
    }

    /// Takes a step if it has no fault. Otherwise returns its first fault and changes nothing.
    pub fn apply(&mut self, step: Step) -> Result<Seen, StepFault>
        ensures accepted { IfOk result (λ seen. IsTaken self.old self.new step seen) }
        ensures refused { IfErr result (λ fault. IsRefused self.old step fault) }
        ensures kept { OnErr result (self.new ≡ self.old) }
        ensures ring { ring_of self.new ≡ ring_of self.old }
    {
        self.take(&step)
    }

    fn take(&mut self, step: &Step) -> Result<Seen, StepFault>
        ensures { IsTakenOrRefused self.old self.new step.now result }
    {
        match step {
            Step::Look { who } => self.look(*who),
            Step::Reserve {
                sender,
                body,
                closes,
            } => self.reserve(*sender, body.as_slice(), *closes),
            Step::Write { sender, slot, half } => self.write(*sender, *slot, *half),
            Step::Flip {
                sender,
                slot,
                count,
            } => self.flip(*sender, *slot, *count),
            Step::Test { slot, count } => self.test(*slot, *count),
            Step::Read { slot, half } => self.read(*slot, *half),
            Step::Advance { count } => self.advance(*count),
            Step::Close { sender } => self.close(*sender),
            Step::Acknowledge { sender, number } => self.acknowledge(*sender, *number),
            Step::Ask { sender } => self.ask(*sender),
        }
    }

    /// Returns what the control word says.
    pub fn control(&self) -> Control
        ensures says { (run : Run) → StandsAfter self.now run → result ≡ control self.now.words.geometry (world run) }
        ensures geometry { IsControl self.now.words.geometry result }
    {
        word_laws::look();
        control_words_say_their_control();
        indexes_tell_the_queue();
        self.words.control().unwrap()
    }

    /// Returns what the sender with this number knows, or `None` if the ring has no such sender.
    pub fn sender(&self, sender: u32) -> Option<&SenderView>
        ensures { MatchOption result (self.now.words.senders ≤ sender) (λ view. (sender < self.now.words.senders) × AfterEachRun self.now (λ run. Knows run sender view.now)) }
    {
        if sender as usize >= self.senders.len() {
            return None;
        }
        Some(&self.senders[sender as usize])
    }
}

/// What this many senders know before their first step.
fn new_views(alloc: Global, senders: u32) -> Result<Vec<SenderView>, AllocError>
    ensures { IfOk result (λ views. (length views.items ≡ senders) × AllKnow [] views.items) }
{
    let mut views = Vec::with_capacity(alloc, senders as usize)?;
    for _ in 0..senders {
        views.push(SenderView::new())?;
    }
    Ok(views)
}

/// Plays steps in a new ring, up to the first that has a fault. Returns the ring, and that step's place in
/// `steps`, from 0, with its fault.
///
/// Errors: those of `Core::new`.
pub fn run(
    alloc: Global,
    log2: u32,
    senders: u32,
    steps: &[Step],
) -> Result<(Core, Option<(usize, StepFault)>), RingFault>
    ensures played { IfOk result (λ told. HasPlayed log2 senders steps.now told.0 told.1) }
    ensures delivery { IfOk result (λ told. IsOrderedDelivery (played (ring_with log2 senders) steps.now).run) }
    ensures refused { IfErr result (λ fault. IsNotMade (core_fault log2 senders) fault) }
{
    world_law();
    let mut core = Core::new(alloc, log2, senders)?;
    for place in 0..steps.len() {
        if let Err(fault) = core.take(&steps[place]) {
            return Ok((core, Some((place, fault))));
        }
    }
    Ok((core, None))
}
