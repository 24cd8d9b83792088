//! The exports of a unit's walks and transactions.
ghost use Rattle.std.specs.Prelude.{◌≡◌};
ghost use Rattle.smmuq_c.specs.Calls.{HasCalled, DoesSaid};
ghost use Rattle.smmuq_c.specs.Kept.{IsKept, KeptUnlessDone};
ghost use Rattle.smmuq_c.specs.Tags.{IsTagOf};
ghost use Rattle.smmuq_c.specs.TrackingCalls.{BeginsWalk, FillsWalked, Begins, BeginsWalked};
ghost use Rattle.smmuq_c.specs.TrackingCalls.{Ends, TellsOutstanding, HasFilledWalked, HasBegun};
ghost use Rattle.smmuq_c.specs.TrackingCalls.{HasBegunWalked, HasEnded, last_word};
ghost use Rattle.smmuq_c.specs.TrackingCalls.{BeginsOutstandingWalk, HasBegunOutstandingWalk};

use crate::handle::Handle;
use crate::object::Object;
use crate::status::Status;
use crate::tags::{TagWords, tag_of};
use crate::words::{Held, TransactionCounts};
use transactions::{Ended, TrackedQueueUnit, Transaction, Walk};

/// Tells the number of a translation table walk that begins now, for `smmuq_fill_walked` and
/// `smmuq_begin_walked`.
#[unsafe(no_mangle)]
pub extern "C" fn smmuq_begin_walk(unit: &mut Handle, walk: &mut u64) -> u32
    ensures called { HasCalled (BeginsWalk walk.new) unit.old unit.new result }
    ensures kept { KeptUnlessDone result walk.old walk.new }
{
    let Some(object) = unit.object_mut() else {
        return Status::EmptyHandle.number();
    };
    begin_walk(object, walk).number()
}

fn begin_walk(object: &Object, walk: &mut u64) -> Status
    ensures called { BeginsWalk walk.new object.now object.now result }
    ensures kept { IsKept result walk.old walk.new }
{
    match object {
        Object::Unit(unit) => {
            *walk = unit.begin_walk().bits();
            Status::Done
        }
        Object::Sender(_)
        | Object::Reservation(_)
        | Object::Engine(_)
        | Object::Consumer(_)
        | Object::Guest(_)
        | Object::Forwarder(_) => Status::WrongHandle,
    }
}

/// A translation table walk begins now that a CMD_SYNC waits for: `walk` tells its number, as `smmuq_begin_walk` does, and
/// `transaction` that of a transaction that uses the tables, never 0, which is to be given to `smmuq_end` once the walk reads
/// and writes tables no more. `TRANSACTIONS_FULL` if as many are outstanding as there is room for.
#[unsafe(no_mangle)]
pub extern "C" fn smmuq_begin_outstanding_walk(
    unit: &mut Handle,
    walk: &mut u64,
    transaction: &mut u64,
) -> u32
    ensures called { HasCalled (BeginsOutstandingWalk walk.new transaction.new) unit.old unit.new
        result }
    ensures walk { KeptUnlessDone result walk.old walk.new }
    ensures transaction { KeptUnlessDone result transaction.old transaction.new }
{
    let Some(object) = unit.object_mut() else {
        return Status::EmptyHandle.number();
    };
    begin_outstanding_walk(object, walk, transaction).number()
}

fn begin_outstanding_walk(object: &mut Object, walk: &mut u64, transaction: &mut u64) -> Status
    ensures called { BeginsOutstandingWalk walk.new transaction.new object.old object.new result }
    ensures walk { IsKept result walk.old walk.new }
    ensures transaction { IsKept result transaction.old transaction.new }
{
    match object {
        Object::Unit(unit) => begin_outstanding_walk_in(unit, walk, transaction),
        Object::Sender(_)
        | Object::Reservation(_)
        | Object::Engine(_)
        | Object::Consumer(_)
        | Object::Guest(_)
        | Object::Forwarder(_) => Status::WrongHandle,
    }
}

fn begin_outstanding_walk_in(
    unit: &mut TrackedQueueUnit,
    walk: &mut u64,
    transaction: &mut u64,
) -> Status
    ensures begun { HasBegunOutstandingWalk walk.new transaction.new unit.old unit.new result }
    ensures walk { IsKept result walk.old walk.new }
    ensures transaction { IsKept result transaction.old transaction.new }
{
    match unit.begin_outstanding_walk() {
        Some((begun, token)) => {
            *walk = begun.bits();
            *transaction = token.into_bits();
            Status::Done
        }
        None => Status::TransactionsFull,
    }
}

/// Puts what a walk read into a unit's caches, born when the walk began. `BAD_FIELD` if the tag
/// isn't one; `OTHER_WALK` if the walk isn't one of this unit since its last reset, `TOO_OLD` if more
/// than 64 invalidations were taken since it began, `OVERTAKEN` if a command that covers the tag was;
/// C2, C1 or C3 as for `smmuq_fill`.
#[unsafe(no_mangle)]
pub extern "C" fn smmuq_fill_walked(unit: &mut Handle, walk: u64, tag: &TagWords, value: u64) -> u32
    ensures { HasCalled (FillsWalked walk tag.now value) unit.old unit.new result }
{
    let Some(object) = unit.object_mut() else {
        return Status::EmptyHandle.number();
    };
    let tag = TagWords::read(tag);
    fill_walked(object, walk, &tag, value).number()
}

fn fill_walked(object: &mut Object, walk: u64, tag: &TagWords, value: u64) -> Status
    ensures { FillsWalked walk tag.now value object.old object.new result }
{
    match object {
        Object::Unit(unit) => fill_walked_in(unit, walk, tag, value),
        Object::Sender(_)
        | Object::Reservation(_)
        | Object::Engine(_)
        | Object::Consumer(_)
        | Object::Guest(_)
        | Object::Forwarder(_) => Status::WrongHandle,
    }
}

fn fill_walked_in(unit: &mut TrackedQueueUnit, walk: u64, tag: &TagWords, value: u64) -> Status
    ensures { DoesSaid (IsTagOf tag.now) (λ t. HasFilledWalked walk t value)
        unit.old unit.new result }
{
    let Some(tag) = tag_of(tag) else {
        return Status::BadField;
    };
    match unit.fill_walked(Walk::from_bits(walk), tag, value) {
        Ok(_) => Status::Done,
        Err(fault) => Status::from(fault),
    }
}

/// A transaction begins with the entry that a unit holds under a tag, which is told. Its number,
/// never 0, is to be given to `smmuq_end` when it is over. `BAD_FIELD` if the tag isn't one,
/// `NOT_HELD` if nothing is held, `TRANSACTIONS_FULL` if as many are outstanding as there is room
/// for.
#[unsafe(no_mangle)]
pub extern "C" fn smmuq_begin(
    unit: &mut Handle,
    tag: &TagWords,
    held: &mut Held,
    transaction: &mut u64,
) -> u32
    ensures called { HasCalled (Begins tag.now held.new transaction.new) unit.old unit.new result }
    ensures held { KeptUnlessDone result held.old held.new }
    ensures transaction { KeptUnlessDone result transaction.old transaction.new }
{
    let Some(object) = unit.object_mut() else {
        return Status::EmptyHandle.number();
    };
    let tag = TagWords::read(tag);
    begin(object, &tag, held, transaction).number()
}

fn begin(object: &mut Object, tag: &TagWords, held: &mut Held, transaction: &mut u64) -> Status
    ensures called { Begins tag.now held.new transaction.new object.old object.new result }
    ensures held { IsKept result held.old held.new }
    ensures transaction { IsKept result transaction.old transaction.new }
{
    match object {
        Object::Unit(unit) => begin_in(unit, tag, held, transaction),
        Object::Sender(_)
        | Object::Reservation(_)
        | Object::Engine(_)
        | Object::Consumer(_)
        | Object::Guest(_)
        | Object::Forwarder(_) => Status::WrongHandle,
    }
}

fn begin_in(
    unit: &mut TrackedQueueUnit,
    tag: &TagWords,
    held: &mut Held,
    transaction: &mut u64,
) -> Status
    ensures begun { DoesSaid (IsTagOf tag.now) (λ t. HasBegun t held.new transaction.new)
        unit.old unit.new result }
    ensures held { IsKept result held.old held.new }
    ensures transaction { IsKept result transaction.old transaction.new }
{
    let Some(tag) = tag_of(tag) else {
        return Status::BadField;
    };
    match unit.begin(&tag) {
        Ok((entry, begun)) => {
            *held = Held::from(entry);
            *transaction = begun.into_bits();
            Status::Done
        }
        Err(fault) => Status::from(fault),
    }
}

/// A transaction begins with what a walk read, whether that is held or not. Its number, never 0, is
/// to be given to `smmuq_end` when it is over. `BAD_FIELD` if the tag isn't one; C2, `OTHER_WALK`,
/// `TOO_OLD` or `OVERTAKEN` as for `smmuq_fill_walked`, `TRANSACTIONS_FULL` as for `smmuq_begin`.
#[unsafe(no_mangle)]
pub extern "C" fn smmuq_begin_walked(
    unit: &mut Handle,
    walk: u64,
    tag: &TagWords,
    transaction: &mut u64,
) -> u32
    ensures called { HasCalled (BeginsWalked walk tag.now transaction.new) unit.old unit.new
        result }
    ensures kept { KeptUnlessDone result transaction.old transaction.new }
{
    let Some(object) = unit.object_mut() else {
        return Status::EmptyHandle.number();
    };
    let tag = TagWords::read(tag);
    begin_walked(object, walk, &tag, transaction).number()
}

fn begin_walked(object: &mut Object, walk: u64, tag: &TagWords, transaction: &mut u64) -> Status
    ensures called { BeginsWalked walk tag.now transaction.new object.old object.new result }
    ensures kept { IsKept result transaction.old transaction.new }
{
    match object {
        Object::Unit(unit) => begin_walked_in(unit, walk, tag, transaction),
        Object::Sender(_)
        | Object::Reservation(_)
        | Object::Engine(_)
        | Object::Consumer(_)
        | Object::Guest(_)
        | Object::Forwarder(_) => Status::WrongHandle,
    }
}

fn begin_walked_in(
    unit: &mut TrackedQueueUnit,
    walk: u64,
    tag: &TagWords,
    transaction: &mut u64,
) -> Status
    ensures begun { DoesSaid (IsTagOf tag.now) (λ t. HasBegunWalked walk t transaction.new)
        unit.old unit.new result }
    ensures kept { IsKept result transaction.old transaction.new }
{
    let Some(tag) = tag_of(tag) else {
        return Status::BadField;
    };
    match unit.begin_walked(Walk::from_bits(walk), &tag) {
        Ok(begun) => {
            *transaction = begun.into_bits();
            Status::Done
        }
        Err(fault) => Status::from(fault),
    }
}

/// The transaction of this number is over. `last` tells 1 if it was the last that a CMD_SYNC waits
/// for, else 0. `NOT_OUTSTANDING` if no such transaction is outstanding here: then nothing changed.
#[unsafe(no_mangle)]
pub extern "C" fn smmuq_end(unit: &mut Handle, transaction: u64, last: &mut u32) -> u32
    ensures called { HasCalled (Ends transaction last.new) unit.old unit.new result }
    ensures kept { KeptUnlessDone result last.old last.new }
{
    let Some(object) = unit.object_mut() else {
        return Status::EmptyHandle.number();
    };
    end(object, transaction, last).number()
}

fn end(object: &mut Object, transaction: u64, last: &mut u32) -> Status
    ensures called { Ends transaction last.new object.old object.new result }
    ensures kept { IsKept result last.old last.new }
{
    match object {
        Object::Unit(unit) => end_in(unit, transaction, last),
        Object::Sender(_)
        | Object::Reservation(_)
        | Object::Engine(_)
        | Object::Consumer(_)
        | Object::Guest(_)
        | Object::Forwarder(_) => Status::WrongHandle,
    }
}

fn end_in(unit: &mut TrackedQueueUnit, transaction: u64, last: &mut u32) -> Status
    ensures ended { HasEnded transaction last.new unit.old unit.new result }
    ensures kept { IsKept result last.old last.new }
{
    match unit.end(Transaction::from_bits(transaction)) {
        Ok(ended) => {
            *last = last_word(ended);
            Status::Done
        }
        Err(back) => {
            back.into_bits();
            Status::NotOutstanding
        }
    }
}

fn last_word(ended: Ended) -> u32
    ensures { result ≡ last_word ended }
{
    match ended {
        Ended::LastCovered => 1,
        Ended::Other => 0,
    }
}

/// Tells how many transactions are outstanding, and how many of those a CMD_SYNC waits for.
#[unsafe(no_mangle)]
pub extern "C" fn smmuq_outstanding(unit: &mut Handle, counts: &mut TransactionCounts) -> u32
    ensures called { HasCalled (TellsOutstanding counts.new) unit.old unit.new result }
    ensures kept { KeptUnlessDone result counts.old counts.new }
{
    let Some(object) = unit.object_mut() else {
        return Status::EmptyHandle.number();
    };
    tell_outstanding(object, counts).number()
}

fn tell_outstanding(object: &Object, counts: &mut TransactionCounts) -> Status
    ensures called { TellsOutstanding counts.new object.now object.now result }
    ensures kept { IsKept result counts.old counts.new }
{
    match object {
        Object::Unit(unit) => {
            *counts = TransactionCounts::from(unit.outstanding());
            Status::Done
        }
        Object::Sender(_)
        | Object::Reservation(_)
        | Object::Engine(_)
        | Object::Consumer(_)
        | Object::Guest(_)
        | Object::Forwarder(_) => Status::WrongHandle,
    }
}
