//! Calls of a unit that tracks walks and transactions.
ghost use Rattle.std.specs.Prelude.{◌≡◌, IfSome, OnOk};
ghost use Rattle.engine.specs.Stops.{unstopped};

use crate::cold::contents::tag;
use caches::Caches;
use cmdcodec::Raw;
use engine::Verdict;
use ringcore::MOST_RESERVED;
use std::alloc::Global;
use std::io;
use std::io::ErrorKind;
use std::rt::Clock;
use std::time::Instant;
use transactions::{TrackedUnit, TrackedVerdict};

/// Returns a full unit of `count` entries with room for `room` transactions, or None if memory ran out.
pub(crate) fn full_unit(alloc: Global, count: u16, room: u16) -> Option<TrackedUnit>
    ensures { IfSome result (λ tracked. tracked.unit.stop ≡ unstopped) }
{
    let caches = Caches::new(alloc, u32::from(count)).ok()?;
    let mut tracked = TrackedUnit::new(alloc, 0, caches, room).ok()?;
    for place in 0..count {
        if tracked.fill(tag(place), 0).is_err() {
            return None;
        }
    }
    Some(tracked)
}

/// Begins a transaction with the entry at a place, and ends it. Returns whether it was held.
fn access(tracked: &mut TrackedUnit, place: u16) -> bool
    requires { tracked.old.unit.stop ≡ unstopped }
    ensures { tracked.new.unit.stop ≡ unstopped }
{
    let Ok((_entry, transaction)) = tracked.begin(&tag(place)) else {
        return false;
    };
    match tracked.end(transaction) {
        Ok(_) => true,
        Err(back) => {
            back.into_bits();
            false
        }
    }
}

/// Returns the nanoseconds of a transaction with each of the first `count` entries.
pub(crate) fn time_transactions<R: Clock>(
    rt: &R,
    tracked: &mut TrackedUnit,
    count: u16,
) -> io::Result<u128>
    requires { tracked.old.unit.stop ≡ unstopped }
    ensures { OnOk result (tracked.new.unit.stop ≡ unstopped) }
{
    let mut all = true;
    let start = Instant::now(rt)?;
    for place in 0..count {
        all &= access(tracked, place);
    }
    let nanoseconds = start.elapsed(rt)?.as_nanos();
    if !all {
        return Err(io::Error::from(ErrorKind::InvalidData));
    }
    Ok(nanoseconds)
}

/// Returns the nanoseconds of a walk for each of the first `count` entries, and of filling what it read.
pub(crate) fn time_walks<R: Clock>(
    rt: &R,
    tracked: &mut TrackedUnit,
    count: u16,
) -> io::Result<u128>
    requires { tracked.old.unit.stop ≡ unstopped }
    ensures { OnOk result (tracked.new.unit.stop ≡ unstopped) }
{
    let mut all = true;
    let start = Instant::now(rt)?;
    for place in 0..count {
        let walk = tracked.begin_walk();
        all &= tracked.fill_walked(walk, tag(place), 1).is_ok();
    }
    let nanoseconds = start.elapsed(rt)?.as_nanos();
    if !all {
        return Err(io::Error::from(ErrorKind::InvalidData));
    }
    Ok(nanoseconds)
}

/// Takes a command that removes nothing; None if it can't be taken.
fn take(tracked: &mut TrackedUnit, raw: Raw) -> Option<()>
    requires { tracked.old.unit.stop ≡ unstopped }
    ensures { IfSome result (λ _. tracked.new.unit.stop ≡ unstopped) }
{
    if tracked.unit().counts().taken() >= MOST_RESERVED {
        return None;
    }
    let TrackedVerdict::Judged(
        Verdict::Applied {
            command: _,
            removed: 0,
        },
    ) = tracked.judge(raw)
    else {
        return None;
    };
    Some(())
}

/// Returns the nanoseconds of taking a command that removes nothing, `count` times.
pub(crate) fn time_judging<R: Clock>(
    rt: &R,
    tracked: &mut TrackedUnit,
    raw: Raw,
    count: u16,
) -> io::Result<u128>
    requires { tracked.old.unit.stop ≡ unstopped }
    ensures { OnOk result (tracked.new.unit.stop ≡ unstopped) }
{
    let start = Instant::now(rt)?;
    for _ in 0..count {
        let Some(()) = take(tracked, raw) else {
            return Err(io::Error::from(ErrorKind::InvalidData));
        };
    }
    Ok(start.elapsed(rt)?.as_nanos())
}
