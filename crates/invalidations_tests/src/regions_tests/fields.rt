//! Fields of commands and their regions, from numbers.
use cmdcodec::{Asid, PageRun, Raw, Sid, Ssid, Vmid, decode};
use regions::{Pages, Region};
use std::process::Abort;

pub fn sid(rt: &impl Abort, number: u64) -> Sid {
    Sid::new(number).expect(rt, "32 bits")
}

pub fn ssid(rt: &impl Abort, number: u64) -> Ssid {
    Ssid::new(number).expect(rt, "20 bits")
}

pub fn vmid(rt: &impl Abort, number: u64) -> Vmid {
    Vmid::new(number).expect(rt, "16 bits")
}

pub fn asid(rt: &impl Abort, number: u64) -> Asid {
    Asid::new(number).expect(rt, "16 bits")
}

/// The pages from `first` up to, but not including, `end`.
pub fn run(first: u64, end: u64) -> Pages {
    Pages::Run(PageRun { first, end })
}

/// The region of the command that two words are.
pub fn region(rt: &impl Abort, lo: u64, hi: u64) -> Region {
    let command = decode(Raw { lo, hi }).expect(rt, "legal");
    Region::of(&command)
}
