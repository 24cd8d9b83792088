//! Times of single commands and look-ups.
ghost use Rattle.std.specs.Prelude.{◌≡◌, ◌≤◌, ◌<◌, OnOk};
ghost use Rattle.engine.specs.Stops.{unstopped};

pub(crate) mod contents;
mod walking;

use contents::{NEVER_HELD, USED, full_unit, invalidation, tag, used_unit};
use engine::{Unit, Verdict};
use ringcore::MOST_RESERVED;
use std::io;
use std::io::ErrorKind;
use std::rt::Clock;
use std::time::Instant;
use walking::Other;

/// How often each is timed.
const TURNS: u32 = 1_000;

/// Entries are visited in strides of a prime, so that each gets its turn.
const STRIDE: u32 = 7_919;

/// What is timed: its name, how many entries are held, and the place of the entry that it is about.
#[derive(Clone, Copy)]
struct Case<'a> {
    what: &'a str,
    count: u16,
    place: u16,
}

/// Prints a line: what was timed, how many entries are held, the nanoseconds, and the sum of the walk before it.
fn report<R: Print>(rt: &R, what: &str, count: u16, nanoseconds: u128, sum: u64) -> io::Result<()> {
    println!(rt; "{what} {count} {nanoseconds} {sum}")
}

/// Times nothing but two readings of the clock.
fn time_nothing<R: Clock + Print>(rt: &R, other: &Other) -> io::Result<()> {
    let sum = other.walk();
    let start = Instant::now(rt)?;
    let nanoseconds = start.elapsed(rt)?.as_nanos();
    report(rt, "nothing", 0, nanoseconds, sum)
}

/// Times the command that removes the entry at a place, and puts in the one at another place, or the same again.
fn time_command<R: Clock + Print>(
    rt: &R,
    other: &Other,
    unit: &mut Unit,
    case: Case,
    next: u16,
) -> io::Result<()>
    requires { unit.old.stop ≡ unstopped }
    ensures { OnOk result (unit.new.stop ≡ unstopped) }
{
    if unit.counts().taken() >= MOST_RESERVED {
        return Err(io::Error::from(ErrorKind::InvalidData));
    }
    let raw = invalidation(case.place);
    let sum = other.walk();
    let start = Instant::now(rt)?;
    let verdict = unit.judge(raw);
    let nanoseconds = start.elapsed(rt)?.as_nanos();
    let Verdict::Applied {
        command: _,
        removed: 1,
    } = verdict
    else {
        return Err(io::Error::from(ErrorKind::InvalidData));
    };
    if unit.fill(tag(next), 0).is_err() {
        return Err(io::Error::from(ErrorKind::OutOfMemory));
    }
    report(rt, case.what, case.count, nanoseconds, sum)
}

/// Times a look-up of the entry at a place, which is held or isn't.
fn time_look_up<R: Clock + Print>(
    rt: &R,
    other: &Other,
    unit: &Unit,
    case: Case,
    is_held: bool,
) -> io::Result<()> {
    let tag = tag(case.place);
    let sum = other.walk();
    let start = Instant::now(rt)?;
    let found = unit.lookup(&tag);
    let nanoseconds = start.elapsed(rt)?.as_nanos();
    if found.is_some() != is_held {
        return Err(io::Error::from(ErrorKind::InvalidData));
    }
    report(rt, case.what, case.count, nanoseconds, sum)
}

/// Times a command and look-ups in a unit of `count` entries, to which nothing has happened but such a command and a fill
/// of the same page, again and again.
fn time_unit<R: Clock + Print>(
    rt: &R,
    other: &Other,
    unit: &mut Unit,
    count: u16,
    turn: u32,
) -> io::Result<()>
    requires stop { unit.old.stop ≡ unstopped }
    requires some { 1 ≤ count }
    requires turn { turn < 1000 }
    ensures { OnOk result (unit.new.stop ≡ unstopped) }
{
    let place = (turn * STRIDE % u32::from(count)) as u16;
    let case = |what, place| Case { what, count, place };
    time_command(rt, other, unit, case("command", place), place)?;
    time_look_up(rt, other, unit, case("look-up", place), true)?;
    time_look_up(rt, other, unit, case("miss", NEVER_HELD), false)
}

/// Times them in a unit of `count` entries in long use, whose oldest entry a command removes, before the next is filled.
fn time_used_unit<R: Clock + Print>(
    rt: &R,
    other: &Other,
    unit: &mut Unit,
    count: u16,
    turn: u32,
) -> io::Result<()>
    requires stop { unit.old.stop ≡ unstopped }
    requires some { 1 ≤ count }
    requires few { count ≤ 20000 }
    requires turn { turn < 1000 }
    ensures { OnOk result (unit.new.stop ≡ unstopped) }
{
    let oldest = USED + turn as u16;
    let held = oldest + 1 + (turn * STRIDE % u32::from(count)) as u16;
    let gone = (turn * STRIDE % u32::from(USED)) as u16;
    let case = |what, place| Case { what, count, place };
    time_command(
        rt,
        other,
        unit,
        case("used-command", oldest),
        oldest + count,
    )?;
    time_look_up(rt, other, unit, case("used-look-up", held), true)?;
    time_look_up(rt, other, unit, case("used-miss", gone), false)
}

/// Times nothing, and commands and look-ups in units of 250 and of 20,000 entries, new ones and ones in long use, in turn.
pub(crate) fn time_all<R: Clock + Print + AllocGlobal>(rt: &R) -> io::Result<()> {
    let other = Other::new(rt.alloc())?;
    let (Some(mut small), Some(mut large), Some(mut small_used), Some(mut large_used)) = (
        full_unit(rt.alloc(), 250),
        full_unit(rt.alloc(), 20_000),
        used_unit(rt.alloc(), 250),
        used_unit(rt.alloc(), 20_000),
    ) else {
        return Err(io::Error::from(ErrorKind::OutOfMemory));
    };
    for turn in 0..TURNS {
        time_nothing(rt, &other)?;
        time_unit(rt, &other, &mut small, 250, turn)?;
        time_unit(rt, &other, &mut large, 20_000, turn)?;
        time_used_unit(rt, &other, &mut small_used, 250, turn)?;
        time_used_unit(rt, &other, &mut large_used, 20_000, turn)?;
    }
    Ok(())
}
