//! The caller that regions' README shows.
use cmdcodec::{Command, Raw, decode};
use regions::{Addresses, Region};
use std::process::Abort;

/// The addresses that a command reaches in one address space, which a listener hears; `None` if it is for none.
fn told(command: &Command) -> Option<Addresses> {
    match Region::of(command) {
        Region::Translations { pages, .. } => Some(pages.addresses()),
        _ => None,
    }
}

/// The same for a guest's two words.
fn told_of_words(rt: &impl Abort, lo: u64, hi: u64) -> Option<Addresses> {
    let command = decode(Raw { lo, hi }).expect(rt, "legal");
    told(&command)
}

#[test]
fn told_to_listeners(rt: HostRuntime) {
    // CMD_TLBI_NH_VA of VMID 1 and ASID 2, 32 pages from 0x10 on: TG 1, NUM 0, SCALE 5.
    let pages = Addresses {
        first: 0x1_0000,
        last: 0x2_ffff,
    };
    assert_eq!(rt;
        told_of_words(&rt, 0x0002_0001_0050_0012, 0x1_0401),
        Some(pages)
    );
    // CMD_TLBI_NH_ALL, and CMD_SYNC.
    let all = Addresses {
        first: 0,
        last: u64::MAX,
    };
    assert_eq!(rt; told_of_words(&rt, 0x1_0000_0010, 0), Some(all));
    assert_eq!(rt; told_of_words(&rt, 0x46, 0), None);
}
