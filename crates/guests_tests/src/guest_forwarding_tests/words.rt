//! What the tests share.
use cmdcodec::{Raw, Sid, Vmid};
use guest_commands::{Guest, HostStream};
use smmu_features::Smmu;
use std::process::Abort;

/// The guest's CMD_TLBI_NH_ASID of its VMID 1 and ASID 5, which becomes one command of the host.
pub const ADDRESS_SPACE: Raw = Raw {
    lo: 0x0005_0001_0000_0011,
    hi: 0,
};

/// The guest's CMD_CFGI_CD_ALL of its stream 4, which becomes two commands of the host.
pub const DESCRIPTORS: Raw = Raw {
    lo: 0x0000_0004_0000_0006,
    hi: 0,
};

/// CMD_PREFETCH_CONFIG, which becomes none.
pub const PREFETCH: Raw = Raw {
    lo: 0x0000_0003_0000_0001,
    hi: 0,
};

/// CMD_SYNC.
pub const SYNC: Raw = Raw { lo: 0x46, hi: 0 };

fn attach<R: Abort>(rt: &R, guest: &mut Guest, own: u64, host: u64) {
    let host = HostStream {
        sid: Sid::new(host).expect(rt, "32 bits"),
        ats: false,
    };
    let own = Sid::new(own).expect(rt, "32 bits");
    guest.attach(own, host).ok().expect(rt, "attached");
}

/// A guest with VMID 0x21 on the host, whose stream 4 is 0x104 and 0x105 there.
pub fn guest<R: AllocGlobal + Abort>(rt: &R) -> Guest {
    let smmu = Smmu::from_registers(0x4_1403, 0x210, 0x400, 0x70);
    let vmid = Vmid::new(0x21).expect(rt, "16 bits");
    let mut guest = Guest::new(rt.alloc(), vmid, smmu).expect(rt, "a VMID of the host");
    attach(rt, &mut guest, 4, 0x104);
    attach(rt, &mut guest, 4, 0x105);
    guest
}
