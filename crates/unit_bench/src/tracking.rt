//! Times of a unit that tracks walks and transactions, beside those of a unit that doesn't.
ghost use Rattle.std.specs.Prelude.{◌≡◌, OnOk};
ghost use Rattle.engine.specs.Stops.{unstopped};

mod alone;
mod tracked;

use crate::cold::contents::{NEVER_HELD, full_unit, invalidation};
use cmdcodec::Raw;
use engine::Unit;
use std::io;
use std::io::ErrorKind;
use std::rt::Clock;
use transactions::TrackedUnit;

/// How often each is timed.
const ROUNDS: u32 = 1_001;

/// How many entries both hold, and how many calls are timed at once.
const HELD: u16 = 250;

/// How many transactions there is room for.
const ROOM: u16 = 64;

/// CMD_SYNC without a signal.
const SYNC: Raw = Raw { lo: 0x46, hi: 0 };

/// What is timed.
#[derive(Clone, Copy)]
enum Call {
    LookUp,
    Fill,
    Judge(Raw),
}

/// The nanoseconds of calls of a unit that doesn't track, and of those of one that does.
#[derive(Drop)]
struct Times {
    alone: u128,
    tracked: u128,
}

/// Times a call of both units.
fn time_both<R: Clock>(
    rt: &R,
    alone: &mut Unit,
    tracked: &mut TrackedUnit,
    call: Call,
) -> io::Result<Times>
    requires alone { alone.old.stop ≡ unstopped }
    requires tracked { tracked.old.unit.stop ≡ unstopped }
    ensures alone { OnOk result (alone.new.stop ≡ unstopped) }
    ensures tracked { OnOk result (tracked.new.unit.stop ≡ unstopped) }
{
    let (first, second) = match call {
        Call::LookUp => (
            alone::time_look_ups(rt, alone, HELD),
            tracked::time_transactions(rt, tracked, HELD),
        ),
        Call::Fill => (
            alone::time_fills(rt, alone, HELD),
            tracked::time_walks(rt, tracked, HELD),
        ),
        Call::Judge(raw) => (
            alone::time_judging(rt, alone, raw, HELD),
            tracked::time_judging(rt, tracked, raw, HELD),
        ),
    };
    match (first, second) {
        (Ok(alone), Ok(tracked)) => Ok(Times { alone, tracked }),
        (Err(error), _) | (_, Err(error)) => Err(error),
    }
}

/// Prints a line for each unit: what was timed, of which unit, how many calls, and their nanoseconds.
fn report<R: Print>(rt: &R, what: &str, times: Times) -> io::Result<()> {
    println!(rt;
        "{what} alone {HELD} {}\n{what} tracked {HELD} {}",
        times.alone, times.tracked
    )
}

/// Times all calls of both units in turn.
pub(crate) fn time_all<R: Clock + Print + AllocGlobal>(rt: &R) -> io::Result<()> {
    let (Some(mut alone), Some(mut tracked)) = (
        full_unit(rt.alloc(), HELD),
        tracked::full_unit(rt.alloc(), HELD, ROOM),
    ) else {
        return Err(io::Error::from(ErrorKind::OutOfMemory));
    };
    let calls = [
        ("look-up", Call::LookUp),
        ("fill", Call::Fill),
        ("sync", Call::Judge(SYNC)),
        ("command", Call::Judge(invalidation(NEVER_HELD))),
    ];
    for round in 0..ROUNDS * 4 {
        let (what, call) = calls[(round % 4) as usize];
        let times = time_both(rt, &mut alone, &mut tracked, call)?;
        report(rt, what, times)?;
    }
    Ok(())
}
