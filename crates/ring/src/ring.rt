//! The ring that all threads share, and how it starts.
ghost use Rattle.std.specs.Prelude.{◌≡◌, ◌≤◌, [], IfOk, IfErr};
ghost use Rattle.qindex.specs.Indexes.{IsGeometry};
ghost use Rattle.ringcore.specs.Limits.{most_senders};
ghost use Rattle.ringcore.specs.memory.Layout.{words_of};
ghost use Rattle.ring.specs.table.{IsWithinLimits, first_participants, participants_from};
ghost use Rattle.ring.specs.Finishing.{AreAll, IsEnd};
ghost use Rattle.ring.specs.consumer.Consumers.{without_device};
ghost use Rattle.ringcore.specs.RingFaults.{IsNotMade, number_fault};
ghost use Rattle.ring.specs.NewRings.{IsNewRing, IsUnused, new_senders};

use crate::consumer::{Commands, Consumer, ConsumerPort, Lent};
use crate::device::Device;
use crate::sender::{Sender, Tally};
use crate::summary::Summary;
use crate::table::{Deals, Gathers, Parameters, Participants, Port, RingRule};
use atomic_table::{Seat, Shared, Table};
use progress::contention_law;
use qindex::{Control, Geometry, Index, control_words_say_their_control, indexes_tell_the_queue};
use ringcore::{RingFault, batches_law, control_word, laws, ring_geometry, words, world_law};
use std::alloc::{AllocError, Global};
use std::marker::Model;

/// The words of a ring, which all threads share.
#[derive(Drop)]
pub struct Ring {
    pub(crate) table: Table<(), Participants, Parameters, RingRule, Global>,
    pub(crate) made_with: Parameters,
}

impl Model for Ring {
    ghost use Rattle.ring.specs.Rings.{RingValue, IsRingValue};

    ghost Value = { RingValue };

    ghost view = { λ r. record { table = r.table.shared.table_id; made_with = r.made_with } };

    ghost invariant = { λ r. IsRingValue r.table.shared.table_id r.table.shared.key r.made_with };
}

impl Ring {
    /// Creates a ring of `2^log2` slots. Returns it with its senders, in the order of their numbers from 0,
    /// and its consumer. Each sender may reserve `max_batches` batches. No later call of this crate takes
    /// memory.
    ///
    /// Errors: N1 if log2 isn't 1 to 19, N2 if senders isn't 1 to 256, N3 if max_batches is 0, N4 if memory
    /// runs out.
    pub fn new<D: Device>(
        alloc: Global,
        log2: u32,
        senders: u32,
        max_batches: u32,
    ) -> Result<(Ring, Vec<Sender>, Consumer<D>), RingFault>
        ensures made { IfOk result (λ r. IsNewRing log2 senders max_batches r.0 r.1.items r.2) }
        ensures refused { IfErr result (λ fault.
            IsNotMade (number_fault log2 senders max_batches) fault) }
    {
        let geometry = ring_geometry(log2, senders, max_batches)?;
        match Ring::open(alloc, geometry, senders, max_batches) {
            Ok(parts) => Ok(parts),
            Err(error) => Err(RingFault::Memory(error)),
        }
    }

    /// Makes a ring before its first step.
    fn open<D: Device>(
        alloc: Global,
        geometry: Geometry,
        senders: u32,
        max_batches: u32,
    ) -> Result<(Ring, Vec<Sender>, Consumer<D>), AllocError>
        requires geometry { IsGeometry geometry }
        requires senders { senders ≤ most_senders }
        ensures { IfOk result (λ r. IsUnused geometry senders max_batches r.0 r.1.items r.2) }
    {
        laws::begin();
        let made_with = Parameters {
            geometry,
            senders,
            max_batches,
        };
        let commands = Commands::new(alloc)?;
        let zeros = vec![in alloc; 0; words(geometry, senders)]?;
        let (table, seat) = Table::of_words(alloc, zeros.as_slice(), &made_with)?;
        let (all, seat) = deal(alloc, &table.shared, seat, senders)?;
        let consumer = Consumer {
            port: ConsumerPort {
                port: Port { seat },
                head: Index::new(geometry, 0).unwrap(),
                taken: 0,
            },
            commands,
            lent: Lent::nothing(),
        };
        Ok((Ring { table, made_with }, all, consumer))
    }

    /// Joins all seats into one: one run of the ring has all their steps. `senders` has all senders of the
    /// ring in the order of their numbers.
    pub fn finish<D: Device>(self, senders: Vec<Sender>, consumer: Consumer<D>) -> Summary
        requires senders { AreAll self senders.items }
        requires consumer { consumer.ring ≡ self }
        ensures { IsEnd self senders.items consumer result }
    {
        let Consumer {
            port,
            commands: _,
            lent: _,
        } = consumer;
        self.join(senders, port)
    }

    /// Joins the seats of all senders and of the consumer, whatever that has acknowledged.
    pub(crate) fn join(self, mut senders: Vec<Sender>, consumer: ConsumerPort) -> Summary
        requires senders { AreAll self senders.items }
        requires consumer { consumer.ring ≡ self }
        ensures { IsEnd self senders.items (without_device consumer) result }
    {
        world_law();
        batches_law();
        laws::look();
        laws::consumer_trail();
        control_words_say_their_control();
        contention_law();
        indexes_tell_the_queue();
        let Ring { table, made_with } = self;
        let taken = consumer.taken();
        let mut seat = consumer.into_seat();
        while let Some(sender) = senders.pop() {
            let other = sender.into_seat();
            table.shared.join_seat::<Gathers>(&mut seat, other);
        }
        let closed = table.close_with(seat);
        let word = closed.word(control_word());
        closed.free();
        let end = Control::unpack(made_with.geometry, word).unwrap();
        Summary {
            reserved: taken + u64::from(end.prod.distance(end.cons)),
            taken,
            closed: end.closed,
        }
    }

    pub(crate) fn geometry(&self) -> Geometry
        ensures { result ≡ self.now.made_with.geometry }
    {
        self.made_with.geometry
    }

    pub(crate) fn senders(&self) -> u32
        ensures { result ≡ self.now.made_with.senders }
    {
        self.made_with.senders
    }

    pub(crate) fn max_batches(&self) -> u32
        ensures { result ≡ self.now.made_with.max_batches }
    {
        self.made_with.max_batches
    }
}

/// Splits off a seat for each sender. The remaining seat is the consumer's.
fn deal(
    alloc: Global,
    words: &Shared<(), Participants, Parameters, RingRule>,
    mut seat: Seat<(), Participants>,
    senders: u32,
) -> Result<(Vec<Sender>, Seat<(), Participants>), AllocError>
    requires table { seat.table_id ≡ words.now.table_id }
    requires first { seat.me ≡ (first_participants words.now.key, []) }
    requires senders { senders ≡ words.now.key.senders }
    requires limits { IsWithinLimits words.now.key }
    requires geometry { IsGeometry words.now.key.geometry }
    requires flags { words.now.key.flags ≡ 64 }
    requires words { words.now.table_id.words
        ≡ words_of words.now.key.geometry words.now.key.senders }
    ensures senders { IfOk result (λ r. r.0.items
        ≡ new_senders (record { table = words.now.table_id; made_with = words.now.key }) senders) }
    ensures consumer { IfOk result (λ r. (r.1.table_id ≡ words.now.table_id)
        × (r.1.me ≡ (participants_from words.now.key senders 0, []))) }
{
    laws::begin();
    let mut all = Vec::with_capacity(alloc, senders as usize)?;
    for number in 0..senders {
        let one = words.split_seat::<Deals>(&mut seat);
        all.push_reserved(Sender {
            port: Port { seat: one },
            tally: Tally::new(number),
        });
    }
    Ok((all, seat))
}
