//! What is left to do once all workers have ended, on one thread.
ghost use Rattle.std.specs.Prelude.{◌≡◌, ◌+◌, ◌<◌, ◌≤◌, [], OnOk, OnErr, IfOk, Err, vec_len, vec_capacity};
ghost use Rattle.std.specs.List.{All};
ghost use Rattle.ringcore.specs.world.ConsumerLaws.{SawDrained};
ghost use Rattle.ring.specs.NewRings.{new_senders};
ghost use Rattle.stress.specs.Plans.{IsPlan};
ghost use Rattle.stress.specs.EngineTurns.{GoesOn, HasGivenUp, HaveClosed};
ghost use Rattle.stress.specs.Workers.{IsNew, assignment, assignments, assignment_of, assignments_of, HasSent};
ghost use Rattle.stress.specs.Reports.{HaveAsked};

use crate::engine_turns::{drain, drain_closed};
use crate::fault::StressFault;
use crate::plan::Plan;
use crate::worker::Worker;
use engine::Engine;
use ring::{Ring, Sender};
use std::alloc::{AllocError, Global};

/// How often a batch is tried, each time after a drain.
const TRIES: u32 = 8;

/// Makes a worker for each sender, in the order of the senders.
pub(crate) fn employ(
    alloc: Global,
    plan: Plan,
    mut senders: Vec<Sender>,
) -> Result<Vec<Worker>, AllocError>
    requires plan { IsPlan plan }
    requires new { All (IsNew plan) senders.items }
    ensures { IfOk result (λ v. assignments v.items ≡ assignments_of plan senders.items) }
{
    let Some(sender) = senders.pop() else {
        return Ok(Vec::new(alloc));
    };
    let mut workers = employ(alloc, plan, senders)?;
    workers.push(Worker {
        plan,
        sender,
        sent: 0,
    })?;
    Ok(workers)
}

/// Tries to send a worker's next batch, each time after a drain.
///
/// Errors: S2 if all tries were refused, or a drain didn't come to its end.
fn send_next(ring: &Ring, worker: Worker, engine: &mut Engine) -> Result<Worker, StressFault>
    requires ring { worker.sender.ring ≡ ring.now }
    requires engine { engine.old.consumer.ring ≡ ring.now }
    requires left { worker.sent < worker.plan.batches }
    ensures assignment { IfOk result (λ next. assignment next ≡ assignment worker) }
    ensures sent { IfOk result (λ next. next.sent ≡ worker.sent + 1) }
    ensures engine { OnOk result (GoesOn 1 engine.old engine.new) }
    ensures err { OnErr result (result ≡ Err StressFault.Unfinished) }
    ensures given_up { OnErr result (HasGivenUp worker.plan engine.old engine.new) }
{
    let mut worker = worker;
    let slots = worker.plan.slots();
    for _ in 0..TRIES {
        drain(ring, slots, engine)?;
        let (next, attempt) = worker.try_next(ring);
        worker = next;
        if attempt.is_sent() {
            return Ok(worker);
        }
    }
    Err(StressFault::Unfinished)
}

/// Sends what is left of a worker's plan, and returns its sender.
fn send_left(
    plan: Plan,
    ring: &Ring,
    worker: Worker,
    engine: &mut Engine,
) -> Result<Sender, StressFault>
    requires plan { worker.plan ≡ plan }
    requires ring { worker.sender.ring ≡ ring.now }
    requires engine { engine.old.consumer.ring ≡ ring.now }
    ensures assignment { IfOk result (λ sender. assignment_of plan sender ≡ assignment worker) }
    ensures sent { IfOk result (λ sender. HasSent plan sender) }
    ensures engine { OnOk result (GoesOn 0 engine.old engine.new) }
    ensures err { OnErr result (result ≡ Err StressFault.Unfinished) }
    ensures given_up { OnErr result (HasGivenUp plan engine.old engine.new) }
{
    let mut worker = worker;
    for _ in 0..worker.left() {
        worker = send_next(ring, worker, engine)?;
    }
    Ok(worker.into_sender())
}

/// Sends what is left of all plans, and returns the senders in their order, in the room made for them.
///
/// Errors: S2.
fn send_all(
    plan: Plan,
    ring: &Ring,
    mut workers: Vec<Worker>,
    room: Vec<Sender>,
    engine: &mut Engine,
) -> Result<Vec<Sender>, StressFault>
    requires room { vec_len workers ≤ vec_capacity room }
    requires empty { room.items ≡ [] }
    requires workers { All (λ w. (w.plan ≡ plan) × (w.sender.ring ≡ ring.now)) workers.items }
    requires engine { engine.old.consumer.ring ≡ ring.now }
    ensures sent { IfOk result (λ v. All (HasSent plan) v.items) }
    ensures senders { IfOk result (λ v. assignments_of plan v.items ≡ assignments workers.items) }
    ensures many { IfOk result (λ v. vec_len v ≡ vec_len workers) }
    ensures capacity { IfOk result (λ v. vec_capacity v ≡ vec_capacity room) }
    ensures engine { OnOk result (GoesOn 0 engine.old engine.new) }
    ensures err { OnErr result (result ≡ Err StressFault.Unfinished) }
    ensures given_up { OnErr result (HasGivenUp plan engine.old engine.new) }
{
    let Some(worker) = workers.pop() else {
        return Ok(room);
    };
    let mut senders = send_all(plan, ring, workers, room, engine)?;
    let sender = send_left(plan, ring, worker, engine)?;
    senders.push_reserved(sender);
    Ok(senders)
}

/// Closes the ring, by the first sender.
fn close_first(plan: Plan, ring: &Ring, mut senders: Vec<Sender>) -> Vec<Sender>
    requires ring { All (λ s. s.ring ≡ ring.now) senders.items }
    requires sent { All (HasSent plan) senders.items }
    requires some { 1 ≤ vec_len senders }
    ensures assignments { assignments_of plan result.items ≡ assignments_of plan senders.items }
    ensures sent { All (HasSent plan) result.items }
    ensures many { vec_len result ≡ vec_len senders }
    ensures closed { HaveClosed ring.now result.items }
{
    senders[0].close(ring);
    senders
}

/// Sends what is left of all plans, closes the ring and takes all that was sent. Returns the senders in their order, in
/// the room made for them.
///
/// Errors: S2.
pub(crate) fn send_and_drain(
    plan: Plan,
    ring: &Ring,
    workers: Vec<Worker>,
    room: Vec<Sender>,
    engine: &mut Engine,
) -> Result<Vec<Sender>, StressFault>
    requires plan { IsPlan plan }
    requires ring { ring.now.made_with.senders ≡ plan.senders }
    requires workers { assignments workers.items
        ≡ assignments_of plan (new_senders ring.now plan.senders) }
    requires engine { engine.old.consumer.ring ≡ ring.now }
    requires room { (room.items ≡ []) × (plan.senders ≤ vec_capacity room) }
    ensures senders { IfOk result (λ v. assignments_of plan v.items
        ≡ assignments_of plan (new_senders ring.now plan.senders)) }
    ensures sent { IfOk result (λ v. All (HasSent plan) v.items) }
    ensures engine { OnOk result (GoesOn 0 engine.old engine.new) }
    ensures drained { OnOk result (SawDrained engine.new.consumer.trail) }
    ensures err { OnErr result (result ≡ Err StressFault.Unfinished) }
    ensures given_up { OnErr result (HasGivenUp plan engine.old engine.new) }
{
    let senders = send_all(plan, ring, workers, room, engine)?;
    let senders = close_first(plan, ring, senders);
    drain_closed(ring, plan.slots(), engine)?;
    Ok(senders)
}

/// Lets each sender ask its completion cell, and returns the numbers in the order of the senders, in the room made for
/// them.
pub(crate) fn ask_all(
    plan: Plan,
    ring: &Ring,
    mut senders: Vec<Sender>,
    room: Vec<u32>,
) -> (Vec<Sender>, Vec<u32>)
    requires room { vec_len senders ≤ vec_capacity room }
    requires empty { room.items ≡ [] }
    requires ring { All (λ s. s.ring ≡ ring.now) senders.items }
    requires sent { All (HasSent plan) senders.items }
    ensures assignments { assignments_of plan result.0.items ≡ assignments_of plan senders.items }
    ensures sent { All (HasSent plan) result.0.items }
    ensures asked { HaveAsked ring.now.made_with.max_batches result.0.items result.1.items }
    ensures many { (vec_len result.0 ≡ vec_len senders) × (vec_len result.1 ≡ vec_len senders) }
    ensures capacity { (vec_capacity result.0 ≡ vec_capacity senders)
        × (vec_capacity result.1 ≡ vec_capacity room) }
{
    let Some(mut sender) = senders.pop() else {
        return (senders, room);
    };
    let (mut senders, mut done) = ask_all(plan, ring, senders, room);
    let found = sender.done_up_to(ring);
    done.push_reserved(found);
    senders.push_reserved(sender);
    (senders, done)
}
