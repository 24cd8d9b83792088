//! What the tests share.
use cmdcodec::{Sid, Vmid};
use guest_commands::HostStream;
use guest_table::GuestTable;
use smmu_features::Smmu;
use std::process::Abort;

/// A host's SMMU with stage 1, ATS and VMIDs of 16 bits, and streams of 16 bits.
pub fn wide() -> Smmu {
    Smmu::from_registers(0x4_1403, 0x210, 0x400, 0x70)
}

/// The same with VMIDs of 8 bits.
pub fn narrow() -> Smmu {
    Smmu::from_registers(0x1403, 0x210, 0x400, 0x70)
}

pub fn sid<R: Abort>(rt: &R, value: u64) -> Sid {
    Sid::new(value).expect(rt, "32 bits")
}

pub fn vmid<R: Abort>(rt: &R, value: u64) -> Vmid {
    Vmid::new(value).expect(rt, "16 bits")
}

/// A stream of the host with ATS.
pub fn host<R: Abort>(rt: &R, value: u64) -> HostStream {
    HostStream {
        sid: sid(rt, value),
        ats: true,
    }
}

/// A table with two guests: 1, whose stream 3 is the host's 0x103, and 2.
pub fn two_guests<R: AllocGlobal + Abort>(rt: &R) -> GuestTable {
    let mut table = GuestTable::new(rt.alloc(), wide());
    let one = table.add().expect(rt, "memory");
    assert!(rt; table.add().is_ok());
    assert!(rt; table.attach(one, sid(rt, 3), host(rt, 0x103)).is_ok());
    table
}
