//! The exports of a guest, whose commands a hypervisor sends on.
ghost use Rattle.std.specs.Prelude.{◌≡◌, ◌≤◌, [], length, take, map};
ghost use Rattle.cmdcodec.specs.Words.{decoding};
ghost use Rattle.smmu_features.specs.IdRegisters.{smmu_of};
ghost use Rattle.guest_commands.specs.Configurations.{concerned};
ghost use Rattle.smmuq_c.specs.Batches.{IsGiven};
ghost use Rattle.smmuq_c.specs.Calls.{Answers, HasCalled};
ghost use Rattle.smmuq_c.specs.Guests.{HasAttached, HasConverted, HasConvertedTo, HasDetached, HasMadeGuest, HasToldFor, HasWritten, OfGuest, TellsConcerned, conversion_words, end_number, ill_at, stream_words};
ghost use Rattle.smmuq_c.specs.Kept.{CountKept, IsCountKept, IsKept, KeptUnlessDone};

use crate::fields::flag;
use crate::guest_words::{Converted, StreamWords};
use crate::handle::{Handle, put};
use crate::object::Object;
use crate::status::{Status, ill_number};
use cmdcodec::{Command, MOST_BODY_COMMANDS, Raw, Sid, Vmid, decode};
use guest_commands::{Attachment, Converted as Conversion, Ended, Guest, HostStream, Stop};
use invalidations::Body;
use smmu_features::Smmu;
use std::alloc::Global;

/// Makes a guest without streams, whose stage 1 has the VMID `vmid` on a host whose SMMU has these ID registers. What the
/// handle held is dropped. `BAD_FIELD` if the SMMU doesn't have the VMID or it is 0, the host's own; `NO_MEMORY` if there is
/// none: then the handle is as before.
#[unsafe(no_mangle)]
pub extern "C" fn smmuq_guest_new(
    alloc: Global,
    vmid: u32,
    idr0: u32,
    idr1: u32,
    idr3: u32,
    idr5: u32,
    guest: &mut Handle,
) -> u32
    ensures { Answers (HasMadeGuest vmid (smmu_of idr0 idr1 idr3 idr5) guest.old.object
        guest.new.object) result }
{
    let smmu = Smmu::from_registers(idr0, idr1, idr3, idr5);
    make_guest(alloc, vmid, smmu, guest).number()
}

fn make_guest(alloc: Global, vmid: u32, smmu: Smmu, guest: &mut Handle) -> Status
    ensures { HasMadeGuest vmid smmu guest.old.object guest.new.object result }
{
    if vmid == 0 {
        return Status::BadField;
    }
    let Some(vmid) = Vmid::new(u64::from(vmid)) else {
        return Status::BadField;
    };
    let Some(made) = Guest::new(alloc, vmid, smmu) else {
        return Status::BadField;
    };
    match Box::new(alloc, Object::Guest(made)) {
        Ok(object) => {
            put(guest, object);
            Status::Done
        }
        Err(_) => Status::NoMemory,
    }
}

/// Makes the stream `host` of the host one of those that the stream `sid` of a guest is; `ats` is 1 if its endpoint caches
/// translations, else 0. V1 to V4, and `BAD_FIELD` for another `ats`: then nothing changed.
#[unsafe(no_mangle)]
pub extern "C" fn smmuq_guest_attach(guest: &mut Handle, sid: u32, host: u32, ats: u32) -> u32
    ensures { HasCalled (OfGuest (HasAttached sid host ats)) guest.old guest.new result }
{
    let Some(object) = guest.object_mut() else {
        return Status::EmptyHandle.number();
    };
    attach(object, sid, host, ats).number()
}

fn attach(object: &mut Object, sid: u32, host: u32, ats: u32) -> Status
    ensures { OfGuest (HasAttached sid host ats) object.old object.new result }
{
    match object {
        Object::Guest(guest) => attach_to(guest, sid, host, ats),
        Object::Unit(_)
        | Object::Sender(_)
        | Object::Reservation(_)
        | Object::Engine(_)
        | Object::Consumer(_)
        | Object::Forwarder(_) => Status::WrongHandle,
    }
}

fn attach_to(guest: &mut Guest, sid: u32, host: u32, ats: u32) -> Status
    ensures { HasAttached sid host ats guest.old guest.new result }
{
    let Some(ats) = flag(ats) else {
        return Status::BadField;
    };
    let sid = stream(sid);
    let host = HostStream {
        sid: stream(host),
        ats,
    };
    match guest.attach(sid, host) {
        Ok(()) => Status::Done,
        Err(fault) => Status::Attachment(fault),
    }
}

/// Takes the stream `sid` from a guest, with all streams of the host that it is. What the host has cached of these is to be
/// invalidated first.
#[unsafe(no_mangle)]
pub extern "C" fn smmuq_guest_detach(guest: &mut Handle, sid: u32) -> u32
    ensures { HasCalled (OfGuest (HasDetached sid)) guest.old guest.new result }
{
    let Some(object) = guest.object_mut() else {
        return Status::EmptyHandle.number();
    };
    detach(object, sid).number()
}

fn detach(object: &mut Object, sid: u32) -> Status
    ensures { OfGuest (HasDetached sid) object.old object.new result }
{
    match object {
        Object::Guest(guest) => {
            guest.detach(stream(sid));
            Status::Done
        }
        Object::Unit(_)
        | Object::Sender(_)
        | Object::Reservation(_)
        | Object::Engine(_)
        | Object::Consumer(_)
        | Object::Forwarder(_) => Status::WrongHandle,
    }
}

/// Writes the host's commands for a beginning of a guest's, of which it reads 63 at most, and tells for how many they are
/// and why no more were taken. `SHORT_BUFFER` if the buffer has no room for 63.
#[unsafe(no_mangle)]
pub extern "C" fn smmuq_guest_convert(
    guest: &mut Handle,
    commands: &[Raw],
    buffer: &mut [Raw],
    converted: &mut Converted,
) -> u32
    ensures called { HasCalled
        (OfGuest (HasConverted commands.now buffer.old buffer.new converted.new)) guest.old
        guest.new result }
    ensures buffer { KeptUnlessDone result buffer.old buffer.new }
    ensures converted { KeptUnlessDone result converted.old converted.new }
{
    let Some(object) = guest.object_mut() else {
        return Status::EmptyHandle.number();
    };
    convert(object, commands, buffer, converted).number()
}

fn convert(
    object: &Object,
    commands: &[Raw],
    buffer: &mut [Raw],
    converted: &mut Converted,
) -> Status
    ensures called { OfGuest (HasConverted commands.now buffer.old buffer.new converted.new)
        object.now object.now result }
    ensures buffer { IsKept result buffer.old buffer.new }
    ensures converted { IsKept result converted.old converted.new }
{
    match object {
        Object::Guest(guest) => convert_for(guest, commands, buffer, converted),
        Object::Unit(_)
        | Object::Sender(_)
        | Object::Reservation(_)
        | Object::Engine(_)
        | Object::Consumer(_)
        | Object::Forwarder(_) => Status::WrongHandle,
    }
}

fn convert_for(
    guest: &Guest,
    commands: &[Raw],
    buffer: &mut [Raw],
    converted: &mut Converted,
) -> Status
    ensures called { HasConverted commands.now buffer.old buffer.new converted.new guest.now
        guest.now result }
    ensures buffer { IsKept result buffer.old buffer.new }
    ensures converted { IsKept result converted.old converted.new }
{
    if buffer.len() < MOST_BODY_COMMANDS {
        return Status::ShortBuffer;
    }
    let mut copy = Body::new();
    copy_first(commands, &mut copy);
    give(guest, copy.as_slice(), buffer, converted);
    Status::Done
}

/// Copies the first commands, 63 at most, each word by a single read. It isn't inlined, so that no read of the copy is made
/// a second read of the caller's memory.
#[inline(never)]
fn copy_first(commands: &[Raw], copy: &mut Body)
    requires { copy.old.items ≡ [] }
    ensures { copy.new.items ≡ take 63 commands.now }
{
    let count = MOST_BODY_COMMANDS.min(commands.len());
    copy.try_extend_from_slice(&commands[..count]).unwrap();
}

/// Gives the host's commands for a beginning of these.
fn give(guest: &Guest, commands: &[Raw], buffer: &mut [Raw], converted: &mut Converted)
    requires few { length commands.now ≤ 63 }
    requires room { 63 ≤ length buffer.old }
    ensures { HasConvertedTo commands.now buffer.old buffer.new converted.new guest.now }
{
    let conversion = &guest.convert_all(commands);
    let made = conversion.commands();
    buffer[..made.len()].copy_from_slice(made);
    *converted = Converted::of(conversion);
}

impl Converted {
    fn of(conversion: &Conversion<'_>) -> Converted
        requires taken { conversion.now.taken ≤ 63 }
        requires made { length conversion.now.commands ≤ 63 }
        ensures { result ≡ conversion_words conversion.now }
    {
        let ended = conversion.ended();
        Converted {
            taken: conversion.taken() as u32,
            made: conversion.commands().len() as u32,
            ended: end_number(&ended),
            ill: ill_at(&ended),
        }
    }
}

fn end_number(ended: &Ended) -> u32
    ensures { result ≡ end_number ended.now }
{
    match *ended {
        Ended::End => 0,
        Ended::Full => 1,
        Ended::At(Stop::Sync) => 2,
        Ended::At(Stop::Configure(_)) => 3,
        Ended::At(Stop::Illegal(_)) => 4,
        Ended::At(Stop::Refused) => 5,
    }
}

fn ill_at(ended: &Ended) -> u32
    ensures { result ≡ ill_at ended.now }
{
    match *ended {
        Ended::At(Stop::Illegal(ill)) => ill_number(ill),
        Ended::End | Ended::Full | Ended::At(Stop::Sync | Stop::Configure(_) | Stop::Refused) => 0,
    }
}

/// Tells the streams of a guest whose stream table entries legal words are for, in the order in which they were attached,
/// and how many they are: none for any command but CMD_CFGI_STE and CMD_CFGI_STE_RANGE. If the buffer is too short, their
/// number is told all the same. An `ILL_` status for illegal words.
#[unsafe(no_mangle)]
pub extern "C" fn smmuq_guest_streams(
    guest: &mut Handle,
    lo: u64,
    hi: u64,
    buffer: &mut [StreamWords],
    count: &mut usize,
) -> u32
    ensures called { HasCalled (TellsConcerned (decoding (record { lo = lo; hi = hi }))
        buffer.old buffer.new count.new) guest.old guest.new result }
    ensures buffer { KeptUnlessDone result buffer.old buffer.new }
    ensures count { CountKept result count.old count.new }
{
    let Some(object) = guest.object_mut() else {
        return Status::EmptyHandle.number();
    };
    tell(object, Raw { lo, hi }, buffer, count).number()
}

fn tell(object: &Object, raw: Raw, buffer: &mut [StreamWords], count: &mut usize) -> Status
    ensures called { TellsConcerned (decoding raw) buffer.old buffer.new count.new
        object.now object.now result }
    ensures buffer { IsKept result buffer.old buffer.new }
    ensures count { IsCountKept result count.old count.new }
{
    match object {
        Object::Guest(guest) => tell_of(guest, raw, buffer, count),
        Object::Unit(_)
        | Object::Sender(_)
        | Object::Reservation(_)
        | Object::Engine(_)
        | Object::Consumer(_)
        | Object::Forwarder(_) => Status::WrongHandle,
    }
}

fn tell_of(guest: &Guest, raw: Raw, buffer: &mut [StreamWords], count: &mut usize) -> Status
    ensures called { HasToldFor (decoding raw) buffer.old buffer.new count.new guest.now guest.now
        result }
    ensures buffer { IsKept result buffer.old buffer.new }
    ensures count { IsCountKept result count.old count.new }
{
    match decode(raw) {
        Ok(command) => give_streams(guest, &command, buffer, count),
        Err(ill) => Status::Illegal(ill),
    }
}

/// Writes the streams that a command configures to a buffer, and their number to `count`.
fn give_streams(
    guest: &Guest,
    command: &Command,
    buffer: &mut [StreamWords],
    count: &mut usize,
) -> Status
    ensures { IsGiven (map stream_words (concerned command.now guest.now.streams))
        buffer.old buffer.new count.new result }
{
    *count = how_many(guest, command);
    if buffer.len() < *count {
        return Status::ShortBuffer;
    }
    write_streams(guest, command, buffer);
    Status::Done
}

fn how_many(guest: &Guest, command: &Command) -> usize
    ensures { result ≡ length (concerned command.now guest.now.streams) }
{
    let most = guest.streams().len();
    let mut rest = guest.configuration(command);
    let mut left = most;
    'streams: while let Some(_) = rest.next() {
        left -= 1;
    }
    most - left
}

fn write_streams(guest: &Guest, command: &Command, buffer: &mut [StreamWords])
    requires { length (concerned command.now guest.now.streams) ≤ length buffer.old }
    ensures { HasWritten (map stream_words (concerned command.now guest.now.streams))
        buffer.old buffer.new }
{
    let mut rest = guest.configuration(command);
    let mut place = 0;
    'streams: while let Some(stream) = rest.next() {
        buffer[place] = StreamWords::of(&stream);
        place += 1;
    }
}

impl StreamWords {
    fn of(stream: &Attachment) -> StreamWords
        ensures { result ≡ stream_words stream.now }
    {
        StreamWords {
            sid: stream.sid.get(),
            host: stream.host.sid.get(),
            ats: u32::from(stream.host.ats),
        }
    }
}

fn stream(sid: u32) -> Sid
    ensures { result ≡ sid }
{
    Sid::new(u64::from(sid)).unwrap()
}
