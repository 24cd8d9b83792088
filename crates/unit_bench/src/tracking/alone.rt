//! Calls of a unit that doesn't track.
ghost use Rattle.std.specs.Prelude.{◌≡◌, IfSome, OnOk};
ghost use Rattle.engine.specs.Stops.{unstopped};

use crate::cold::contents::tag;
use cmdcodec::Raw;
use engine::{Unit, Verdict};
use ringcore::MOST_RESERVED;
use std::io;
use std::io::ErrorKind;
use std::rt::Clock;
use std::time::Instant;

/// Returns the nanoseconds of a look-up of each of the first `count` entries.
pub(crate) fn time_look_ups<R: Clock>(rt: &R, unit: &Unit, count: u16) -> io::Result<u128> {
    let mut all = true;
    let start = Instant::now(rt)?;
    for place in 0..count {
        all &= unit.lookup(&tag(place)).is_some();
    }
    let nanoseconds = start.elapsed(rt)?.as_nanos();
    if !all {
        return Err(io::Error::from(ErrorKind::InvalidData));
    }
    Ok(nanoseconds)
}

/// Returns the nanoseconds of filling each of the first `count` entries once more.
pub(crate) fn time_fills<R: Clock>(rt: &R, unit: &mut Unit, count: u16) -> io::Result<u128>
    requires { unit.old.stop ≡ unstopped }
    ensures { OnOk result (unit.new.stop ≡ unstopped) }
{
    let mut all = true;
    let start = Instant::now(rt)?;
    for place in 0..count {
        all &= unit.fill(tag(place), 1).is_ok();
    }
    let nanoseconds = start.elapsed(rt)?.as_nanos();
    if !all {
        return Err(io::Error::from(ErrorKind::InvalidData));
    }
    Ok(nanoseconds)
}

/// Takes a command that removes nothing; None if it can't be taken.
fn take(unit: &mut Unit, raw: Raw) -> Option<()>
    requires { unit.old.stop ≡ unstopped }
    ensures { IfSome result (λ _. unit.new.stop ≡ unstopped) }
{
    if unit.counts().taken() >= MOST_RESERVED {
        return None;
    }
    let Verdict::Applied {
        command: _,
        removed: 0,
    } = unit.judge(raw)
    else {
        return None;
    };
    Some(())
}

/// Returns the nanoseconds of taking a command that removes nothing, `count` times.
pub(crate) fn time_judging<R: Clock>(
    rt: &R,
    unit: &mut Unit,
    raw: Raw,
    count: u16,
) -> io::Result<u128>
    requires { unit.old.stop ≡ unstopped }
    ensures { OnOk result (unit.new.stop ≡ unstopped) }
{
    let start = Instant::now(rt)?;
    for _ in 0..count {
        let Some(()) = take(unit, raw) else {
            return Err(io::Error::from(ErrorKind::InvalidData));
        };
    }
    Ok(start.elapsed(rt)?.as_nanos())
}
