//! What tapes hold.
use crate::reading::Reading;
use cmdcodec::Raw;
use std::snapshot::Snapshot;

/// Commands, of which only clauses see the earlier ones.
#[derive(Drop)]
pub enum Log {
    Nothing,
    Next(Raw, Snapshot<Log>),
}

/// Numbers, likewise.
#[derive(Drop)]
pub enum Numbers {
    NoNumber,
    Number(u64, Snapshot<Numbers>),
}

/// Readings, likewise.
#[derive(Drop)]
pub enum Readings {
    NoReading,
    Read(Reading, Snapshot<Readings>),
}
