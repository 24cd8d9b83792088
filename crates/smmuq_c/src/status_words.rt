//! What each status is called, and the export that tells it.
ghost use Rattle.std.specs.Prelude.{◌≡◌, ◌<◌};
ghost use Rattle.smmuq_c.specs.Calls.{Answers};
ghost use Rattle.smmuq_c.specs.StatusWords.{words_of, IsNumbered, HasToldStatus};
ghost use Rattle.smmuq_c.specs.Kept.{CountKept, IsCountKept, IsKept, KeptUnlessDone};

use crate::codec::copy_text;
use crate::status::Status;
use batch::BatchFault;
use caches::CacheFault;
use cmdcodec::Ill;
use engine::AckFault;
use guest_commands::AttachFault;
use ring::{Cause, RingFault};
use std::alloc::AllocError;

impl Status {
    /// Its label, if it has one, and what it means.
    fn words(self) -> &'static str
        ensures { result.now ≡ words_of self }
    {
        match self {
            Status::Done => "done",
            Status::Illegal(Ill::UnknownOpcode) => "ILL1: unknown opcode",
            Status::Illegal(Ill::SecureStream) => "ILL2: a Secure stream",
            Status::Illegal(Ill::ReservedSignal) => "ILL3: a reserved completion signal",
            Status::Illegal(Ill::OversizedSpan) => "ILL4: an oversized span",
            Status::Cache(CacheFault::Full) => "C1: the caches are full",
            Status::Cache(CacheFault::BadBlock) => "C2: the block isn't well formed",
            Status::Cache(CacheFault::NoMemory) => "C3: out of memory",
            Status::Cache(CacheFault::BadCapacity) => "C4: the capacity isn't 1 to 65,536",
            Status::Batch(BatchFault::Full) => "B1: more than 63 commands",
            Status::Batch(BatchFault::SyncInside) => "B2: a CMD_SYNC among the commands",
            Status::Batch(BatchFault::NoPages) => "B3: no page",
            Status::Batch(BatchFault::PastEnd) => "B4: pages past the last one",
            Status::Batch(BatchFault::Empty) => "B5: no command",
            Status::Refused(Cause::Closed) => "Q1: the ring is closed",
            Status::Refused(Cause::Full) => "Q2: too little room",
            Status::Refused(Cause::Contended) => "Q3: another changed the ring first",
            Status::Refused(Cause::TooLong) => "Q4: the batch is longer than the ring",
            Status::Refused(Cause::Exhausted) => "Q5: the sender has no batch left",
            Status::Waiting => "Q6: a command waits to be taken",
            Status::Ring(RingFault::Size) => "N1: the ring isn't of 2 to 524,288 slots",
            Status::Ring(RingFault::Senders) => "N2: the senders aren't 1 to 256",
            Status::Ring(RingFault::Batches) => "N3: a sender may reserve no batch",
            Status::Ring(RingFault::Memory(_)) => "N4: out of memory",
            Status::Acknowledgement(AckFault::NoError) => "G1: no error is active",
            Status::Acknowledgement(AckFault::OtherBit) => "G2: CMDQ_ERR isn't that of SMMU_GERROR",
            Status::Attachment(AttachFault::OutOfRange) =>
                "V1: the host's SMMU doesn't have this stream",
            Status::Attachment(AttachFault::Used) => "V2: the host's stream is in use already",
            Status::Attachment(AttachFault::Full) => "V3: the guest's stream is 63 streams already",
            Status::Attachment(AttachFault::NoMemory) => "V4: out of memory",
            Status::EmptyHandle => "the handle is empty",
            Status::WrongHandle => "the handle is of another kind",
            Status::BadField => "a field is out of range",
            Status::ShortBuffer => "the buffer is too short",
            Status::NoMemory => "out of memory",
            Status::NotHeld => "no entry has this tag",
            Status::OpenReservation => "the sender's reservation is open",
            Status::NoReservation => "the sender has no open reservation",
            Status::Unsupported => "the SMMU lacks the stage, the granule or ATS",
            Status::StillStopped => "consumption is stopped",
            Status::OtherCommand => "another command than the one at which it stopped",
            Status::Exhausted => "as many commands as may be were taken",
            Status::RingEmpty => "nothing is reserved",
            Status::RingDrained => "nothing is reserved, and nothing will be",
            Status::RingUnwritten => "the command at the head isn't handed over",
            Status::Replaced => "an illegal command was taken without effect",
            Status::SyncWaiting => "the CMD_SYNC has to wait for transactions",
            Status::Overtaken => "a command that covers the tag was taken since the walk began",
            Status::TooOld => "more than 64 invalidations were taken since the walk began",
            Status::OtherWalk => "the walk isn't one of this unit since its last reset",
            Status::TransactionsFull => "as many transactions are outstanding as there is room for",
            Status::NotOutstanding => "no transaction of this number is outstanding",
            Status::QueueFull => "as many commands as the hardware's queue has slots are in flight",
            Status::QueueStopped => "the hardware is stopped by an error",
            Status::QueueBroken => "no working queue can have these words in its registers",
            Status::NotIllegal => "the error isn't CERROR_ILL",
            Status::SyncStays => "a CMD_SYNC isn't replaced",
        }
    }
}

/// Returns the status of this number, if any.
fn numbered(number: u32) -> Option<Status>
    ensures { IsNumbered number result }
{
    match number {
        0 => Some(Status::Done),
        1 => Some(Status::Illegal(Ill::UnknownOpcode)),
        2 => Some(Status::Illegal(Ill::SecureStream)),
        3 => Some(Status::Illegal(Ill::ReservedSignal)),
        4 => Some(Status::Illegal(Ill::OversizedSpan)),
        0x11 => Some(Status::Cache(CacheFault::Full)),
        0x12 => Some(Status::Cache(CacheFault::BadBlock)),
        0x13 => Some(Status::Cache(CacheFault::NoMemory)),
        0x14 => Some(Status::Cache(CacheFault::BadCapacity)),
        0x21 => Some(Status::Batch(BatchFault::Full)),
        0x22 => Some(Status::Batch(BatchFault::SyncInside)),
        0x23 => Some(Status::Batch(BatchFault::NoPages)),
        0x24 => Some(Status::Batch(BatchFault::PastEnd)),
        0x25 => Some(Status::Batch(BatchFault::Empty)),
        0x31 => Some(Status::Refused(Cause::Closed)),
        0x32 => Some(Status::Refused(Cause::Full)),
        0x33 => Some(Status::Refused(Cause::Contended)),
        0x34 => Some(Status::Refused(Cause::TooLong)),
        0x35 => Some(Status::Refused(Cause::Exhausted)),
        0x36 => Some(Status::Waiting),
        0x41 => Some(Status::Ring(RingFault::Size)),
        0x42 => Some(Status::Ring(RingFault::Senders)),
        0x43 => Some(Status::Ring(RingFault::Batches)),
        0x44 => Some(Status::Ring(RingFault::Memory(AllocError))),
        0x51 => Some(Status::Acknowledgement(AckFault::NoError)),
        0x52 => Some(Status::Acknowledgement(AckFault::OtherBit)),
        0x53 => Some(Status::NotIllegal),
        0x54 => Some(Status::SyncStays),
        0x60 => Some(Status::EmptyHandle),
        0x61 => Some(Status::WrongHandle),
        0x62 => Some(Status::BadField),
        0x63 => Some(Status::ShortBuffer),
        0x64 => Some(Status::NoMemory),
        0x65 => Some(Status::NotHeld),
        0x66 => Some(Status::OpenReservation),
        0x67 => Some(Status::NoReservation),
        0x68 => Some(Status::Unsupported),
        0x70 => Some(Status::StillStopped),
        0x71 => Some(Status::OtherCommand),
        0x72 => Some(Status::Exhausted),
        0x73 => Some(Status::RingEmpty),
        0x74 => Some(Status::RingDrained),
        0x75 => Some(Status::RingUnwritten),
        0x76 => Some(Status::Replaced),
        0x77 => Some(Status::SyncWaiting),
        0x78 => Some(Status::Overtaken),
        0x79 => Some(Status::TooOld),
        0x7a => Some(Status::OtherWalk),
        0x7b => Some(Status::TransactionsFull),
        0x7c => Some(Status::NotOutstanding),
        0x7d => Some(Status::QueueFull),
        0x7e => Some(Status::QueueStopped),
        0x7f => Some(Status::QueueBroken),
        0x81 => Some(Status::Attachment(AttachFault::OutOfRange)),
        0x82 => Some(Status::Attachment(AttachFault::Used)),
        0x83 => Some(Status::Attachment(AttachFault::Full)),
        0x84 => Some(Status::Attachment(AttachFault::NoMemory)),
        _ => None,
    }
}

/// Writes the words of a status, such as `Q2: too little room`, ended by a 0, and their length without that. If the
/// buffer is too short, the length is told all the same. `BAD_FIELD` if no status has this number.
#[unsafe(no_mangle)]
pub extern "C" fn smmuq_status_text(status: u32, buffer: &mut [u8], written: &mut usize) -> u32
    ensures answered { Answers (HasToldStatus status buffer.old buffer.new written.new) result }
    ensures buffer { KeptUnlessDone result buffer.old buffer.new }
    ensures written { CountKept result written.old written.new }
{
    write_words(status, buffer, written).number()
}

fn write_words(number: u32, buffer: &mut [u8], written: &mut usize) -> Status
    ensures answered { HasToldStatus number buffer.old buffer.new written.new result }
    ensures buffer { IsKept result buffer.old buffer.new }
    ensures written { IsCountKept result written.old written.new }
{
    match numbered(number) {
        Some(status) => copy_text(status.words().as_bytes(), buffer, written),
        None => Status::BadField,
    }
}
