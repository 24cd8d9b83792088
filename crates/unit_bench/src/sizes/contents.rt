//! What the caches hold while they are timed.
ghost use Rattle.std.specs.Prelude.{◌≤◌};

use caches::{Caches, Entry, Scope, Tag};
use cmdcodec::{Asid, Page, Sid, Ssid, Vmid};
use std::alloc::Global;

/// The entries that are held.
#[derive(Clone, Copy, Debug, PartialEq, Eq)]
pub(crate) enum Contents {
    /// 16 of each stream, virtual machine and hypervisor that the commands name, and else a few of many others.
    Mixed,
    /// None in the TLB.
    NoTlb,
    /// All of one virtual machine, stage 1.
    OneMachine,
    /// All of the hypervisor.
    Hypervisor,
}

fn sid(id: u32) -> Sid {
    Sid::new(u64::from(id)).unwrap()
}

fn vmid(id: u16) -> Vmid {
    Vmid::new(u64::from(id)).unwrap()
}

fn own_scope() -> Scope {
    Scope::Of(Asid::new(1).unwrap())
}

/// Every sixteenth page.
fn page(place: u16) -> Page {
    Page::new(u64::from(place) * 16).unwrap()
}

fn descriptor(stream: u32, place: u16) -> Tag {
    Tag::Cd {
        sid: sid(stream),
        ssid: Ssid::new(u64::from(place)).unwrap(),
    }
}

fn stage1(machine: u16, place: u16) -> Tag {
    Tag::S1 {
        vmid: vmid(machine),
        scope: own_scope(),
        page: page(place),
        span: 0,
    }
}

fn stage2(machine: u16, place: u16) -> Tag {
    Tag::S2 {
        vmid: vmid(machine),
        page: page(place),
        span: 0,
    }
}

fn hypervisor(place: u16) -> Tag {
    Tag::El2 {
        scope: own_scope(),
        page: page(place),
        span: 0,
    }
}

fn endpoint(stream: u32, place: u16) -> Tag {
    Tag::Atc {
        sid: sid(stream),
        ssid: None,
        page: page(place),
        span: 0,
    }
}

/// 16 each of the endpoint of stream 7, of stream 8, of machines 7 and 8, and of the hypervisor.
fn named(place: u16) -> Tag {
    match place / 16 {
        0 => endpoint(7, place),
        1 => descriptor(8, place),
        2 => stage1(7, place),
        3 => stage2(8, place),
        _ => hypervisor(place),
    }
}

/// Entries of streams and machines from 1,000 on, a few of each.
fn other(place: u16) -> Tag {
    let owner = 1_000 + place / 64;
    match place % 4 {
        0 => descriptor(u32::from(owner), place),
        1 => stage1(owner, place),
        2 => stage2(owner, place),
        _ => endpoint(u32::from(owner), place),
    }
}

fn without_tlb(place: u16) -> Tag {
    let owner = 1_000 + u32::from(place / 64);
    match place % 2 {
        0 => descriptor(owner, place),
        _ => endpoint(owner, place),
    }
}

impl Contents {
    fn tag(self, place: u16) -> Tag {
        match self {
            Contents::Mixed if place < 80 => named(place),
            Contents::Mixed => other(place),
            Contents::NoTlb => without_tlb(place),
            Contents::OneMachine => stage1(7, place),
            Contents::Hypervisor => hypervisor(place),
        }
    }

    /// Returns caches full with `size` entries, or None if memory ran out.
    pub(crate) fn full(self, alloc: Global, size: u32) -> Option<Caches>
        requires { size ≤ 65536 }
    {
        let mut caches = Caches::new(alloc, size).ok()?;
        for place in 0..size {
            caches
                .fill(Entry {
                    tag: self.tag(place as u16),
                    value: 0,
                    born: 0,
                })
                .ok()?;
        }
        Some(caches)
    }
}
