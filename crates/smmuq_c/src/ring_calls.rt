//! The exports that make a ring: a handle for each sender and one for what takes the commands, each for a thread of its
//! own.
ghost use Rattle.std.specs.Prelude.{◌≡◌, ◌≤◌, [], Some, IfOk, IfErr, OnOk, length, map};
ghost use Rattle.std.specs.List.{All};
ghost use Rattle.std.specs.Arc.{arc_value};
ghost use Rattle.ringcore.specs.Limits.{most_senders};
ghost use Rattle.smmuq_c.specs.declared.object.Object.TheVariants.{Sender as SenderOf};
ghost use Rattle.ring.specs.consumer.Completing.{taken_of};
ghost use Rattle.ring.specs.consumer.Deferring.{deferring};
ghost use Rattle.hardware_queue.specs.declared.state.QueueState.TheVariants.{Running};
ghost use Rattle.hardware_queue.specs.Queues.{QueueValue};
ghost use Rattle.hardware_queue.specs.Owners.{IsNew};
ghost use Rattle.smmuq_c.specs.Calls.{Answers};
ghost use Rattle.smmuq_c.specs.MakingRings.{HasMadeRing, HasMadeConsumerRing, HasMadeForwarderRing, AreNewSeats, IsNewEngine, IsNewConsumer, IsNewForwarder, IsNoEngineRing, IsNoForwarderRing, IsNoRing, objects_in, sender_count, boxed};

use crate::handle::{Handle, put};
use crate::object::Object;
use crate::seated_consumer::{CallersDevice, SeatedConsumer};
use crate::seated_engine::SeatedEngine;
use crate::seated_forwarder::SeatedForwarder;
use crate::seated_sender::{SeatedSender, new_room};
use crate::status::Status;
use crate::unit_calls::new_caches;
use engine::{Engine, Unit};
use hardware_queue::{Forwarder, Owner};
use qindex::Geometry;
use ring::{Consumer, Ring, Sender};
use shadow_queue::ShadowQueue;
use std::alloc::{AllocError, AllocFailed, Global};
use std::sync::Arc;

/// What goes into the handles of a ring.
#[derive(Drop)]
struct Seats {
    senders: Vec<Box<Object>>,
    /// What takes the commands.
    taker: Box<Object>,
}

/// Makes a ring of `2^log2` slots, and fills a handle for each sender, in the order of their numbers, and one for its
/// engine, whose caches hold `capacity` entries. Each sender may reserve `max_batches` batches. What the handles held
/// is dropped. C4, N1, N2, N3, N4 or `NO_MEMORY` if none is made: then all handles are as before.
#[unsafe(no_mangle)]
pub extern "C" fn smmuq_ring_new(
    alloc: Global,
    log2: u32,
    max_batches: u32,
    capacity: u32,
    senders: &mut [Handle],
    engine: &mut Handle,
) -> u32
    ensures { Answers (HasMadeRing log2 max_batches capacity senders.old senders.new
        engine.old.object engine.new.object) result }
{
    make_ring(alloc, log2, max_batches, capacity, senders, engine).number()
}

fn make_ring(
    alloc: Global,
    log2: u32,
    max_batches: u32,
    capacity: u32,
    senders: &mut [Handle],
    engine: &mut Handle,
) -> Status
    ensures { HasMadeRing log2 max_batches capacity senders.old senders.new
        engine.old.object engine.new.object result }
{
    match engine_seats(alloc, log2, count_of(senders), max_batches, capacity) {
        Ok(seats) => {
            fill_all(senders, engine, seats);
            Status::Done
        }
        Err(status) => status,
    }
}

/// The same with a consumer's handle instead of the engine's: its holder takes the commands. N1, N2, N3, N4 or
/// `NO_MEMORY` if none is made: then all handles are as before.
#[unsafe(no_mangle)]
pub extern "C" fn smmuq_consumer_ring_new(
    alloc: Global,
    log2: u32,
    max_batches: u32,
    senders: &mut [Handle],
    consumer: &mut Handle,
) -> u32
    ensures { Answers (HasMadeConsumerRing log2 max_batches senders.old senders.new
        consumer.old.object consumer.new.object) result }
{
    make_consumer_ring(alloc, log2, max_batches, senders, consumer).number()
}

fn make_consumer_ring(
    alloc: Global,
    log2: u32,
    max_batches: u32,
    senders: &mut [Handle],
    consumer: &mut Handle,
) -> Status
    ensures { HasMadeConsumerRing log2 max_batches senders.old senders.new
        consumer.old.object consumer.new.object result }
{
    match consumer_seats(alloc, log2, count_of(senders), max_batches) {
        Ok(seats) => {
            fill_all(senders, consumer, seats);
            Status::Done
        }
        Err(status) => status,
    }
}

/// The same with a forwarder's handle instead of the engine's, for a hardware queue of `2^queue_log2` slots that has not
/// begun: SMMU_CMDQ_PROD and SMMU_CMDQ_CONS are 0, and CMDQ_ERR of SMMU_GERROR and SMMU_GERRORN too. `BAD_FIELD` if
/// `queue_log2` isn't 1 to 19, N1, N2, N3, N4 or `NO_MEMORY` if none is made: then all handles are as before.
#[unsafe(no_mangle)]
pub extern "C" fn smmuq_forwarder_ring_new(
    alloc: Global,
    log2: u32,
    max_batches: u32,
    queue_log2: u32,
    senders: &mut [Handle],
    forwarder: &mut Handle,
) -> u32
    ensures { Answers (HasMadeForwarderRing log2 max_batches queue_log2 senders.old senders.new
        forwarder.old.object forwarder.new.object) result }
{
    make_forwarder_ring(alloc, log2, max_batches, queue_log2, senders, forwarder).number()
}

fn make_forwarder_ring(
    alloc: Global,
    log2: u32,
    max_batches: u32,
    queue_log2: u32,
    senders: &mut [Handle],
    forwarder: &mut Handle,
) -> Status
    ensures { HasMadeForwarderRing log2 max_batches queue_log2 senders.old senders.new
        forwarder.old.object forwarder.new.object result }
{
    match forwarder_seats(alloc, log2, count_of(senders), max_batches, queue_log2) {
        Ok(seats) => {
            fill_all(senders, forwarder, seats);
            Status::Done
        }
        Err(status) => status,
    }
}

pub(crate) fn count_of(handles: &[Handle]) -> u32
    ensures { result ≡ sender_count handles.now }
{
    handles.len().min(u32::MAX as usize) as u32
}

/// Allocates all that a ring with an engine needs.
fn engine_seats(
    alloc: Global,
    log2: u32,
    senders: u32,
    max_batches: u32,
    capacity: u32,
) -> Result<Seats, Status>
    ensures made { IfOk result (λ s. AreNewSeats (IsNewEngine capacity) log2 senders max_batches
        (boxed s.senders.items) s.taker.value) }
    ensures refused { IfErr result (λ status.
        IsNoEngineRing log2 senders max_batches capacity status) }
    ensures count { IfOk result (λ s. length s.senders.items ≡ senders) }
    ensures few { OnOk result (senders ≤ most_senders) }
{
    let caches = match new_caches(alloc, capacity) {
        Ok(caches) => caches,
        Err(status) => return Err(status),
    };
    let (ring, all, consumer) = match Ring::new::<Unit>(alloc, log2, senders, max_batches) {
        Ok(parts) => parts,
        Err(fault) => return Err(Status::Ring(fault)),
    };
    let Ok((ring, senders)) = share(alloc, ring, all) else {
        return Err(Status::NoMemory);
    };
    let seated = SeatedEngine::new(ring, Engine::new(consumer, caches));
    match Box::new(alloc, Object::Engine(seated)) {
        Ok(taker) => Ok(Seats { senders, taker }),
        Err(_) => Err(Status::NoMemory),
    }
}

/// Allocates all that a ring without an engine needs.
fn consumer_seats(alloc: Global, log2: u32, senders: u32, max_batches: u32) -> Result<Seats, Status>
    ensures made { IfOk result (λ s. AreNewSeats IsNewConsumer log2 senders max_batches
        (boxed s.senders.items) s.taker.value) }
    ensures refused { IfErr result (λ status. IsNoRing log2 senders max_batches status) }
    ensures count { IfOk result (λ s. length s.senders.items ≡ senders) }
    ensures few { OnOk result (senders ≤ most_senders) }
{
    let (ring, all, consumer) = match Ring::new::<CallersDevice>(
        alloc,
        log2,
        senders,
        max_batches,
    ) {
        Ok(parts) => parts,
        Err(fault) => return Err(Status::Ring(fault)),
    };
    let Ok((ring, senders)) = share(alloc, ring, all) else {
        return Err(Status::NoMemory);
    };
    let seated = SeatedConsumer::new(ring, consumer);
    match Box::new(alloc, Object::Consumer(seated)) {
        Ok(taker) => Ok(Seats { senders, taker }),
        Err(_) => Err(Status::NoMemory),
    }
}

/// Allocates all that a ring with a forwarder needs.
fn forwarder_seats(
    alloc: Global,
    log2: u32,
    senders: u32,
    max_batches: u32,
    queue_log2: u32,
) -> Result<Seats, Status>
    ensures made { IfOk result (λ s.
        AreNewSeats (IsNewForwarder queue_log2) log2 senders max_batches
        (boxed s.senders.items) s.taker.value) }
    ensures refused { IfErr result (λ status.
        IsNoForwarderRing log2 senders max_batches queue_log2 status) }
    ensures count { IfOk result (λ s. length s.senders.items ≡ senders) }
    ensures few { OnOk result (senders ≤ most_senders) }
{
    let Some(geometry) = Geometry::new(queue_log2) else {
        return Err(Status::BadField);
    };
    let (ring, all, consumer) = match Ring::new::<Owner<ShadowQueue>>(
        alloc,
        log2,
        senders,
        max_batches,
    ) {
        Ok(parts) => parts,
        Err(fault) => return Err(Status::Ring(fault)),
    };
    let Ok(forwarder) = new_forwarder(alloc, consumer, geometry, senders) else {
        return Err(Status::NoMemory);
    };
    let Ok((ring, senders)) = share(alloc, ring, all) else {
        return Err(Status::NoMemory);
    };
    let seated = SeatedForwarder::new(ring, forwarder);
    match Box::new(alloc, Object::Forwarder(seated)) {
        Ok(taker) => Ok(Seats { senders, taker }),
        Err(_) => Err(Status::NoMemory),
    }
}

/// Creates a forwarder of a new ring's consumer, for a queue that has not begun.
fn new_forwarder(
    alloc: Global,
    consumer: Consumer<Owner<ShadowQueue>>,
    geometry: Geometry,
    senders: u32,
) -> Result<Forwarder<ShadowQueue>, AllocError>
    requires senders { senders ≡ consumer.ring.made_with.senders }
    requires taken { taken_of consumer.trail ≡ [] }
    ensures { IfOk result (λ f. ((q : QueueValue) × IsNew q geometry
        × (f ≡ record {
          consumer = deferring consumer;
          owner = record { queue = q; state = Running };
        }))) }
{
    let queue = ShadowQueue::new(alloc, geometry)?;
    Forwarder::new(alloc, consumer, Owner::new(queue, geometry), senders)
}

/// Shares the ring among its seats, and makes a seat for each sender.
pub(crate) fn share(
    alloc: Global,
    ring: Ring,
    all: Vec<Sender>,
) -> Result<(Arc<Ring>, Vec<Box<Object>>), AllocError>
    requires { All (λ s. s.ring ≡ ring) all.items }
    ensures ring { IfOk result (λ r. arc_value r.0 ≡ ring) }
    ensures seats { IfOk result (λ r. boxed r.1.items ≡ map SenderOf all.items) }
{
    let ring = Arc::new(alloc, ring)?;
    let seats = seat_all(alloc, &ring, all)?;
    Ok((ring, seats))
}

/// Makes a seat for each sender, the last first.
fn seat_all(
    alloc: Global,
    ring: &Arc<Ring>,
    all: Vec<Sender>,
) -> Result<Vec<Box<Object>>, AllocError>
    requires { All (λ s. s.ring ≡ arc_value ring.now) all.items }
    ensures { IfOk result (λ seats. boxed seats.items ≡ map SenderOf all.items) }
{
    let mut all = all;
    let mut seats = Vec::new(alloc);
    while let Some(sender) = all.pop() {
        let seat = seat(alloc, ring, sender)?;
        seats.push(seat)?;
    }
    Ok(seats)
}

/// Makes a seat for a sender.
///
/// It isn't inlined, and a seat that has no room is dropped as the sender that it is: so it takes less stack.
#[inline(never)]
fn seat(alloc: Global, ring: &Arc<Ring>, sender: Sender) -> Result<Box<Object>, AllocError>
    requires { sender.ring ≡ arc_value ring.now }
    ensures { IfOk result (λ seat. seat.value ≡ SenderOf sender) }
{
    let own = Arc::try_clone(ring)?;
    let room = new_room(alloc)?;
    match Box::new(alloc, Object::Sender(SeatedSender::new(own, sender, room))) {
        Ok(seat) => Ok(seat),
        Err(
            AllocFailed {
                value: Object::Sender(seated),
            },
        ) => {
            drop(seated);
            Err(AllocError)
        }
        Err(_) => unreachable!(),
    }
}

/// Fills the handles of all seats.
fn fill_all(handles: &mut [Handle], taker: &mut Handle, seats: Seats)
    requires { length seats.senders.items ≡ length handles.old }
    ensures objects { objects_in handles.new ≡ map Some (boxed seats.senders.items) }
    ensures many { length handles.new ≡ length handles.old }
    ensures taker { taker.new.object ≡ Some seats.taker.value }
{
    let Seats {
        senders,
        taker: seat,
    } = seats;
    fill_senders(handles, senders);
    put(taker, seat);
}

/// Fills the handles of the senders, the first from the last seat.
pub(crate) fn fill_senders(handles: &mut [Handle], seats: Vec<Box<Object>>)
    requires { length seats.items ≡ length handles.old }
    ensures objects { objects_in handles.new ≡ map Some (boxed seats.items) }
    ensures many { length handles.new ≡ length handles.old }
{
    let mut seats = seats;
    for handle in handles.iter_mut() {
        let seat = seats.pop().unwrap();
        put(handle, seat);
    }
}
