//! Times of commands in caches of several sizes.
mod contents;

use caches::Caches;
use cmdcodec::{Command, Raw, decode};
use contents::Contents;
use std::alloc::Global;
use std::io;
use std::io::ErrorKind;
use std::rt::Clock;
use std::time::Instant;

const ROUNDS: u32 = 20;

/// The words of a command of each kind, which remove nothing of `Contents::Mixed`.
const MIXED: [(u64, u64); 17] = [
    // CFGI_STE, CFGI_STE_RANGE, CFGI_CD and CFGI_CD_ALL.
    (0x0000_0007_0000_0003, 0),
    (0x0000_0007_0000_0004, 0),
    (0x0000_0008_0000_0005, 0),
    (0x0000_0007_0000_0006, 0),
    // TLBI_NH_ALL, TLBI_NH_ASID, TLBI_NH_VA, the same by range, and TLBI_NH_VAA.
    (0x0000_0008_0000_0010, 0),
    (0x0002_0007_0000_0011, 0),
    (0x0001_0007_0000_0012, 0x20_8000),
    (0x0001_0007_0000_7012, 0x20_8400),
    (0x0000_0007_0000_0013, 0x20_8000),
    // TLBI_EL2_ASID, TLBI_EL2_VA and TLBI_EL2_VAA.
    (0x0002_0000_0000_0021, 0),
    (0x0001_0000_0000_0022, 0x40_8000),
    (0x0000_0000_0000_0023, 0x40_8000),
    // TLBI_S12_VMALL and TLBI_S2_IPA.
    (0x0000_0009_0000_0028, 0),
    (0x0000_0008_0000_002a, 0x30_8000),
    // ATC_INV, CMD_PREFETCH_CONFIG and CMD_SYNC.
    (0x0000_0007_0000_0040, 0x8000),
    (0x0000_0007_0000_0001, 0),
    (0x0000_0000_0000_0046, 0),
];

/// TLBI_EL2_ALL and TLBI_NSNH_ALL, which remove all that they may meet.
const NO_TLB: [(u64, u64); 2] = [(0x20, 0), (0x30, 0)];

/// TLBI_NH_ASID, and TLBI_EL2_ASID.
const ONE_MACHINE: [(u64, u64); 1] = [(0x0002_0007_0000_0011, 0)];

const HYPERVISOR: [(u64, u64); 1] = [(0x0002_0000_0000_0021, 0)];

/// Caches of each size, 256, 4,096 and 65,536 entries, with the same contents.
#[derive(Drop)]
struct Sizes {
    small: Caches,
    medium: Caches,
    large: Caches,
}

/// Nanoseconds at each size.
#[derive(Clone, Copy)]
struct Times {
    small: u128,
    medium: u128,
    large: u128,
}

impl Sizes {
    /// Returns them, or None if memory ran out.
    fn new(alloc: Global, contents: Contents) -> Option<Sizes> {
        Some(Sizes {
            small: contents.full(alloc, 256)?,
            medium: contents.full(alloc, 4_096)?,
            large: contents.full(alloc, 65_536)?,
        })
    }

    fn are_full(&self) -> bool {
        self.small.len() == 256 && self.medium.len() == 4_096 && self.large.len() == 65_536
    }
}

/// Returns the nanoseconds of `calls` calls.
fn time_calls<R: Clock>(
    rt: &R,
    caches: &mut Caches,
    command: &Command,
    calls: u32,
) -> io::Result<u128> {
    let start = Instant::now(rt)?;
    for _ in 0..calls {
        caches.apply(command);
    }
    Ok(start.elapsed(rt)?.as_nanos())
}

/// Returns the shortest times of some rounds. Each round goes over all sizes, so that other load on the machine slows
/// them alike.
fn shortest_times<R: Clock>(
    rt: &R,
    sizes: &mut Sizes,
    command: &Command,
    calls: u32,
) -> io::Result<Times> {
    let mut least = Times {
        small: u128::MAX,
        medium: u128::MAX,
        large: u128::MAX,
    };
    for _ in 0..ROUNDS {
        least = Times {
            small: least
                .small
                .min(time_calls(rt, &mut sizes.small, command, calls)?),
            medium: least
                .medium
                .min(time_calls(rt, &mut sizes.medium, command, calls)?),
            large: least
                .large
                .min(time_calls(rt, &mut sizes.large, command, calls)?),
        };
    }
    Ok(least)
}

/// Prints a line for each of these commands: what is held, the nanoseconds of `calls` calls at each size, how many
/// calls, and the command.
fn report<R: Clock + Print + AllocGlobal>(
    rt: &R,
    contents: Contents,
    table: &[(u64, u64)],
    calls: u32,
) -> io::Result<()> {
    let Some(mut sizes) = Sizes::new(rt.alloc(), contents) else {
        return Err(io::Error::from(ErrorKind::OutOfMemory));
    };
    for (lo, hi) in table {
        if let Ok(command) = decode(Raw { lo: *lo, hi: *hi }) {
            let Times {
                small,
                medium,
                large,
            } = shortest_times(rt, &mut sizes, &command, calls)?;
            println!(rt; "{contents:?} {small} {medium} {large} {calls} {command}")?;
        }
    }
    // If a command removed something, the times are of something else.
    if !sizes.are_full() {
        return Err(io::Error::from(ErrorKind::InvalidData));
    }
    Ok(())
}

/// Times all commands.
pub(crate) fn time_all<R: Clock + Print + AllocGlobal>(rt: &R) -> io::Result<()> {
    report(rt, Contents::Mixed, &MIXED, 500)?;
    report(rt, Contents::NoTlb, &NO_TLB, 500)?;
    report(rt, Contents::OneMachine, &ONE_MACHINE, 4)?;
    report(rt, Contents::Hypervisor, &HYPERVISOR, 4)
}
