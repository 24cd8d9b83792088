//! What the tests share.
use cmdcodec::{Raw, Sid, Vmid};
use guest_commands::{Ended, Guest, HostStream};
use smmu_features::Smmu;
use std::process::Abort;

/// Two words, lo and hi.
pub type Words = (u64, u64);

/// All translations of the guest on the host.
pub const ALL: Words = (0x0000_0021_0000_0010, 0);

/// A host's SMMU with all that is asked of it: SMMU_IDR0 has S2P, S1P, ATS, ASID16 and VMID16, SMMU_IDR1 streams of
/// 16 bits and substreams of 8, SMMU_IDR3 RIL, and SMMU_IDR5 all granules.
pub fn full() -> Smmu {
    Smmu::from_registers(0x4_1403, 0x210, 0x400, 0x70)
}

pub fn sid<R: Abort>(rt: &R, value: u64) -> Sid {
    Sid::new(value).expect(rt, "32 bits")
}

pub fn attach<R: Abort>(rt: &R, guest: &mut Guest, own: u64, host: u64, ats: bool) {
    let host = HostStream {
        sid: sid(rt, host),
        ats,
    };
    guest.attach(sid(rt, own), host).ok().expect(rt, "attached");
}

/// A guest with VMID 0x21 on the host. Its stream 3 is 0x103 there, and 4 is 0x104 and 0x105, of which the last has no
/// ATS.
pub fn guest<R: AllocGlobal + Abort>(rt: &R, smmu: Smmu) -> Guest {
    let vmid = Vmid::new(0x21).expect(rt, "16 bits");
    let mut guest = Guest::new(rt.alloc(), vmid, smmu).expect(rt, "a VMID of the host");
    attach(rt, &mut guest, 3, 0x103, true);
    attach(rt, &mut guest, 4, 0x104, true);
    attach(rt, &mut guest, 4, 0x105, false);
    guest
}

fn raw(words: Words) -> Raw {
    Raw {
        lo: words.0,
        hi: words.1,
    }
}

/// That a command of the guest becomes just this one of the host.
pub fn expect_one<R: Abort>(rt: &R, guest: &Guest, rows: &[(Words, Words)]) {
    for (own, wanted) in rows {
        let converted = guest.convert_all(&[raw(*own)]);
        let commands = converted.commands();
        assert!(rt; commands.len() == 1, "{:x} {:x}", own.0, own.1);
        assert_eq!(rt; commands[0], raw(*wanted));
        assert!(rt; converted.taken() == 1 && converted.ended() == Ended::End);
    }
}

/// That a command of the guest becomes just these two of the host.
pub fn expect_two<R: Abort>(rt: &R, guest: &Guest, own: Words, wanted: [Words; 2]) {
    let converted = guest.convert_all(&[raw(own)]);
    let commands = converted.commands();
    assert!(rt; commands.len() == 2);
    assert_eq!(rt; commands[0], raw(wanted[0]));
    assert_eq!(rt; commands[1], raw(wanted[1]));
}

/// That each of these commands of the guest means nothing on the host.
pub fn expect_nothing<R: Abort>(rt: &R, guest: &Guest, rows: &[Words]) {
    for own in rows {
        let converted = guest.convert_all(&[raw(*own)]);
        assert!(rt; converted.commands().is_empty(), "{:x} {:x}", own.0, own.1);
        assert!(rt; converted.taken() == 1 && converted.ended() == Ended::End);
    }
}

/// That each of these commands of the guest isn't taken for this reason.
pub fn expect_ended<R: Abort>(rt: &R, guest: &Guest, rows: &[(Words, Ended)]) {
    for (own, wanted) in rows {
        let converted = guest.convert_all(&[raw(*own)]);
        assert!(rt; converted.commands().is_empty() && converted.taken() == 0);
        assert!(rt; converted.ended() == *wanted, "{:x} {:x}", own.0, own.1);
    }
}
