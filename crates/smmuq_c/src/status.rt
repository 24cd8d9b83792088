//! A call's status, and its number for C: an enum doesn't cross to C.
ghost use Rattle.std.specs.Prelude.{◌≡◌, ◌<◌};
ghost use Rattle.smmuq_c.specs.Statuses.{number_of, ill_number, cache_number, batch_number, cause_number, ring_number, acknowledgement_number, attachment_number};

use batch::BatchFault;
use caches::CacheFault;
use cmdcodec::Ill;
use engine::AckFault;
use guest_commands::AttachFault;
use ring::{Cause, RingFault};

/// A call's status: it did what it was asked, or why not.
#[derive(Clone, Copy, Debug, PartialEq, Eq)]
pub(crate) enum Status {
    /// It did what it was asked.
    Done,
    /// The words are illegal.
    Illegal(Ill),
    Cache(CacheFault),
    Batch(BatchFault),
    /// Nothing was reserved.
    Refused(Cause),
    /// A command waits to be taken, so that nothing was renewed.
    Waiting,
    /// No ring was made.
    Ring(RingFault),
    Acknowledgement(AckFault),
    /// The stream wasn't attached.
    Attachment(AttachFault),
    /// The handle is empty: it was never made, or it was freed.
    EmptyHandle,
    /// The handle is of another kind.
    WrongHandle,
    /// A field is out of range.
    BadField,
    /// The buffer is too short.
    ShortBuffer,
    /// Out of memory.
    NoMemory,
    /// No entry has this tag.
    NotHeld,
    /// The sender has an open reservation, which comes first.
    OpenReservation,
    /// The sender has no open reservation.
    NoReservation,
    /// The SMMU lacks the stage, the granule or ATS.
    Unsupported,
    /// Consumption is stopped, and nothing was done.
    StillStopped,
    /// After a stop, another command came than the one at which it stopped.
    OtherCommand,
    /// As many commands were taken as may be.
    Exhausted,
    /// Nothing is reserved.
    RingEmpty,
    /// Nothing is reserved, and nothing will be.
    RingDrained,
    /// The command at the head isn't published.
    RingUnwritten,
    /// An illegal command was taken without effect.
    Replaced,
    /// It is a CMD_SYNC that has to wait for transactions.
    SyncWaiting,
    /// A command that covers the tag was taken since the walk began.
    Overtaken,
    /// More than 64 invalidations were taken since the walk began.
    TooOld,
    /// The walk isn't one of this unit since its last reset.
    OtherWalk,
    /// As many transactions are outstanding as there is room for.
    TransactionsFull,
    /// No transaction of this number is outstanding.
    NotOutstanding,
    /// As many commands as the hardware's queue has slots aren't settled.
    QueueFull,
    /// The hardware is stopped by an error.
    QueueStopped,
    /// The registers had words that no working queue has.
    QueueBroken,
    /// The command would be replaced, but the error isn't CERROR_ILL.
    NotIllegal,
    /// The command would be replaced, but it is a CMD_SYNC.
    SyncStays,
}

impl Status {
    /// The number that C gets.
    pub(crate) fn number(self) -> u32
        ensures { result ≡ number_of self }
    {
        match self {
            Status::Done => 0,
            Status::Illegal(ill) => ill_number(ill),
            Status::Cache(fault) => cache_number(fault),
            Status::Batch(fault) => batch_number(fault),
            Status::Refused(cause) => cause_number(cause),
            Status::Waiting => 0x36,
            Status::Ring(fault) => ring_number(fault),
            Status::Acknowledgement(fault) => acknowledgement_number(fault),
            Status::Attachment(fault) => attachment_number(fault),
            Status::EmptyHandle => 0x60,
            Status::WrongHandle => 0x61,
            Status::BadField => 0x62,
            Status::ShortBuffer => 0x63,
            Status::NoMemory => 0x64,
            Status::NotHeld => 0x65,
            Status::OpenReservation => 0x66,
            Status::NoReservation => 0x67,
            Status::Unsupported => 0x68,
            Status::StillStopped => 0x70,
            Status::OtherCommand => 0x71,
            Status::Exhausted => 0x72,
            Status::RingEmpty => 0x73,
            Status::RingDrained => 0x74,
            Status::RingUnwritten => 0x75,
            Status::Replaced => 0x76,
            Status::SyncWaiting => 0x77,
            Status::Overtaken => 0x78,
            Status::TooOld => 0x79,
            Status::OtherWalk => 0x7a,
            Status::TransactionsFull => 0x7b,
            Status::NotOutstanding => 0x7c,
            Status::QueueFull => 0x7d,
            Status::QueueStopped => 0x7e,
            Status::QueueBroken => 0x7f,
            Status::NotIllegal => 0x53,
            Status::SyncStays => 0x54,
        }
    }
}

/// The number of a label, 1 to 4 for ILL1 to ILL4.
pub(crate) fn ill_number(ill: Ill) -> u32
    ensures value { result ≡ ill_number ill }
    ensures some { 0 < result }
{
    match ill {
        Ill::UnknownOpcode => 1,
        Ill::SecureStream => 2,
        Ill::ReservedSignal => 3,
        Ill::OversizedSpan => 4,
    }
}

fn cache_number(fault: CacheFault) -> u32
    ensures { result ≡ cache_number fault }
{
    match fault {
        CacheFault::Full => 0x11,
        CacheFault::BadBlock => 0x12,
        CacheFault::NoMemory => 0x13,
        CacheFault::BadCapacity => 0x14,
    }
}

fn batch_number(fault: BatchFault) -> u32
    ensures { result ≡ batch_number fault }
{
    match fault {
        BatchFault::Full => 0x21,
        BatchFault::SyncInside => 0x22,
        BatchFault::NoPages => 0x23,
        BatchFault::PastEnd => 0x24,
        BatchFault::Empty => 0x25,
    }
}

fn cause_number(cause: Cause) -> u32
    ensures { result ≡ cause_number cause }
{
    match cause {
        Cause::Closed => 0x31,
        Cause::Full => 0x32,
        Cause::Contended => 0x33,
        Cause::TooLong => 0x34,
        Cause::Exhausted => 0x35,
    }
}

fn ring_number(fault: RingFault) -> u32
    ensures { result ≡ ring_number fault }
{
    match fault {
        RingFault::Size => 0x41,
        RingFault::Senders => 0x42,
        RingFault::Batches => 0x43,
        RingFault::Memory(_) => 0x44,
    }
}

fn attachment_number(fault: AttachFault) -> u32
    ensures { result ≡ attachment_number fault }
{
    match fault {
        AttachFault::OutOfRange => 0x81,
        AttachFault::Used => 0x82,
        AttachFault::Full => 0x83,
        AttachFault::NoMemory => 0x84,
    }
}

fn acknowledgement_number(fault: AckFault) -> u32
    ensures { result ≡ acknowledgement_number fault }
{
    match fault {
        AckFault::NoError => 0x51,
        AckFault::OtherBit => 0x52,
    }
}
