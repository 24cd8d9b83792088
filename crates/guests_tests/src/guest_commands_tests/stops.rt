//! Commands that are never taken.
use crate::guest_commands_tests::expecting::{expect_ended, full, guest, sid};
use cmdcodec::{Command, Ill, StreamRange};
use guest_commands::{Ended, Stop};

#[test]
fn for_the_hypervisor(rt: HostRuntime) {
    let all = StreamRange::new(31).expect(&rt, "5 bits");
    let entry = Command::CfgiSte {
        sid: sid(&rt, 3),
        leaf: true,
    };
    let entries = Command::CfgiSteRange {
        sid: sid(&rt, 0),
        range: all,
    };
    let rows = [
        // CMD_SYNC with SIG_IRQ, and an address of a completing write
        ((0x1046, 0x1000), Ended::At(Stop::Sync)),
        (
            (0x0000_0003_0000_0003, 1),
            Ended::At(Stop::Configure(entry)),
        ),
        ((0x04, 31), Ended::At(Stop::Configure(entries))),
    ];
    expect_ended(&rt, &guest(&rt, full()), &rows);
}

#[test]
fn illegal(rt: HostRuntime) {
    let rows = [
        ((0xff, 0), Ended::At(Stop::Illegal(Ill::UnknownOpcode))),
        // SSec of CMD_CFGI_CD
        (
            (0x0000_0003_0000_0405, 0),
            Ended::At(Stop::Illegal(Ill::SecureStream)),
        ),
        // CS 3
        ((0x3046, 0), Ended::At(Stop::Illegal(Ill::ReservedSignal))),
        // Size 53
        (
            (0x0000_0003_0000_0040, 53),
            Ended::At(Stop::Illegal(Ill::OversizedSpan)),
        ),
    ];
    expect_ended(&rt, &guest(&rt, full()), &rows);
}

/// CMD_TLBI_EL2_ALL, EL2_ASID, EL2_VA and EL2_VAA, S12_VMALL and S2_IPA, PRI_RESP, RESUME and STALL_TERM.
#[test]
fn refused(rt: HostRuntime) {
    let guest = guest(&rt, full());
    for lo in [0x20, 0x21, 0x22, 0x23, 0x28, 0x2a, 0x41, 0x44, 0x45] {
        expect_ended(&rt, &guest, &[((lo, 0), Ended::At(Stop::Refused))]);
    }
}
