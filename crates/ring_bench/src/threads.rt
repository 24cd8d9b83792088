//! Times of senders and a consumer, each on its own thread.
ghost use Rattle.std.specs.Prelude.{◌≡◌};
ghost use Rattle.std.specs.List.{All};
ghost use Rattle.std.specs.Thread.{IsSync};

use crate::commands::batch_of;
use crate::nothing::Nothing;
use crate::taker::{Pace, Taker};
use batch::Batch;
use caches::Caches;
use engine::{Engine, Unit};
use ring::{Receipt, Ring, Sender};
use std::alloc::AllocGlobal;
use std::io;
use std::io::ErrorKind;
use std::rt::Clock;
use std::thread::{Threads, join};
use std::time::Instant;

/// The ring has `2^10` slots.
const LOG2: u32 = 10;

/// How many batches each sender sends.
const BATCHES: u32 = 300_000;

/// How many commands four successive batches of a sender have, with their CMD_SYNC: 2, 3, 4 and 5.
const FOUR_BATCHES: u64 = 14;

/// What a sender does after each batch.
#[derive(Clone, Copy)]
pub(crate) enum Sending {
    /// It sends the next.
    Stream,
    /// It asks until the batch is done.
    RoundTrip,
}

impl Sending {
    /// Its name in a line of the results.
    fn name(self) -> &'static str {
        match self {
            Sending::Stream => "stream",
            Sending::RoundTrip => "round_trip",
        }
    }
}

/// When the taker looks again, and what senders do after each batch.
#[derive(Clone, Copy)]
struct Setting {
    pace: Pace,
    sending: Sending,
}

/// Asks until the batch is done.
fn wait_until_done(ring: &Ring, sender: &mut Sender, receipt: &Receipt)
    requires ring { sender.old.ring ≡ ring.now }
    requires receipt { receipt.now.sender ≡ sender.old.number }
    ensures ring { sender.new.ring ≡ sender.old.ring }
{
    for _ in 0..u64::MAX {
        if sender.is_done(ring, receipt) {
            return;
        }
    }
}

/// Sends all batches: batch k of sender s has 1 + (s + k) mod 4 commands before its CMD_SYNC. If one can't be sent, it
/// closes the ring.
fn send_all(ring: &Ring, sender: Sender, batches: &[Batch; 4], sending: Sending)
    requires { sender.ring ≡ ring.now }
{
    let mut sender = sender;
    let first = sender.id() % 4;
    for k in 0..BATCHES {
        let batch = &batches[((first + k) % 4) as usize];
        match sender.send(ring, batch, u32::MAX) {
            Ok((again, receipt)) => {
                sender = again;
                if let Sending::RoundTrip = sending {
                    wait_until_done(ring, &mut sender, &receipt);
                }
            }
            Err(mut refused) => {
                refused.sender.close(ring);
                return;
            }
        }
    }
}

/// Runs each sender on its own thread.
fn run_senders<R: Threads + Sync>(
    rt: &R,
    ring: &Ring,
    batches: &[Batch; 4],
    mut senders: Vec<Sender>,
    sending: Sending,
)
    requires { All (λ s. s.ring ≡ ring.now) senders.items }
{
    let Some(sender) = senders.pop() else {
        return;
    };
    join(
        rt,
        move ||
            requires { sender.ring ≡ ring.now }
        { send_all(ring, sender, batches, sending) },
        move ||
            requires { IsSync R.row × All (λ s. s.ring ≡ ring.now) senders.items }
        { run_senders(rt, ring, batches, senders, sending) },
    );
}

/// Runs the taker and each sender, each on its own thread, and returns how many commands were taken.
fn run_all<R: Threads + Sync, T: Taker + Send + Drop>(
    rt: &R,
    ring: &Ring,
    batches: &[Batch; 4],
    senders: Vec<Sender>,
    taker: T,
    wanted: u64,
    setting: Setting,
) -> u64
    requires senders { All (λ s. s.ring ≡ ring.now) senders.items }
    requires taker { T.ring_of taker ≡ ring.now }
{
    let (taken, ()) = join(
        rt,
        move || -> u64
            requires { T.ring_of taker ≡ ring.now }
        { taker.take_all(ring, wanted, setting.pace) },
        move ||
            requires { IsSync R.row × All (λ s. s.ring ≡ ring.now) senders.items }
        { run_senders(rt, ring, batches, senders, setting.sending) },
    );
    taken
}

/// Returns the nanoseconds from before the threads start to after all are joined, and how many commands were taken.
fn time_one<R: Clock + Threads + Sync, T: Taker + Send + Drop>(
    rt: &R,
    ring: &Ring,
    batches: &[Batch; 4],
    senders: Vec<Sender>,
    taker: T,
    setting: Setting,
) -> io::Result<(u128, u64)>
    requires senders { All (λ s. s.ring ≡ ring.now) senders.items }
    requires taker { T.ring_of taker ≡ ring.now }
{
    let wanted = (u64::from(BATCHES / 4) * FOUR_BATCHES).saturating_mul(senders.len() as u64);
    let start = Instant::now(rt)?;
    let taken = run_all(rt, ring, batches, senders, taker, wanted, setting);
    Ok((start.elapsed(rt)?.as_nanos(), taken))
}

/// Times a consumer without an engine, whose device does nothing.
fn time_consumer<R: Clock + Threads + AllocGlobal + Sync>(
    rt: &R,
    batches: &[Batch; 4],
    senders: u32,
    setting: Setting,
) -> io::Result<(u128, u64)> {
    let Ok((ring, all, consumer)) = Ring::new::<Nothing>(rt.alloc(), LOG2, senders, BATCHES) else {
        return Err(io::Error::from(ErrorKind::OutOfMemory));
    };
    time_one(rt, &ring, batches, all, consumer, setting)
}

/// Times the engine, whose caches are empty.
fn time_engine<R: Clock + Threads + AllocGlobal + Sync>(
    rt: &R,
    batches: &[Batch; 4],
    senders: u32,
    setting: Setting,
) -> io::Result<(u128, u64)> {
    let Ok((ring, all, consumer)) = Ring::new::<Unit>(rt.alloc(), LOG2, senders, BATCHES) else {
        return Err(io::Error::from(ErrorKind::OutOfMemory));
    };
    let Ok(caches) = Caches::new(rt.alloc(), 1) else {
        return Err(io::Error::from(ErrorKind::InvalidData));
    };
    time_one(
        rt,
        &ring,
        batches,
        all,
        Engine::new(consumer, caches),
        setting,
    )
}

/// Prints two lines, for a consumer without an engine and for the engine: who takes, at which pace, what senders do after
/// each batch, how many senders, the nanoseconds, and how many commands were taken.
fn report<R: Clock + Threads + Print + AllocGlobal + Sync>(
    rt: &R,
    batches: &[Batch; 4],
    senders: u32,
    setting: Setting,
) -> io::Result<()> {
    let names = (setting.pace.name(), setting.sending.name());
    let (nanoseconds, taken) = time_consumer(rt, batches, senders, setting)?;
    println!(rt;
        "ring {} {} {senders} {nanoseconds} {taken}",
        names.0, names.1
    )?;
    let (nanoseconds, taken) = time_engine(rt, batches, senders, setting)?;
    println!(rt;
        "engine {} {} {senders} {nanoseconds} {taken}",
        names.0, names.1
    )
}

/// Prints the lines of so many senders at each pace.
fn report_paces<R: Clock + Threads + Print + AllocGlobal + Sync>(
    rt: &R,
    batches: &[Batch; 4],
    senders: u32,
    sending: Sending,
) -> io::Result<()> {
    let (at_once, waiting) = (Pace::AtOnce, Pace::Waiting);
    report(
        rt,
        batches,
        senders,
        Setting {
            pace: at_once,
            sending,
        },
    )?;
    report(
        rt,
        batches,
        senders,
        Setting {
            pace: waiting,
            sending,
        },
    )
}

/// Prints the lines of 1 to 3 senders.
pub(crate) fn time_all<R: Clock + Threads + Print + AllocGlobal + Sync>(
    rt: &R,
    sending: Sending,
) -> io::Result<()> {
    let batches = [batch_of(1)?, batch_of(2)?, batch_of(3)?, batch_of(4)?];
    for senders in 1..4 {
        report_paces(rt, &batches, senders, sending)?;
    }
    Ok(())
}
