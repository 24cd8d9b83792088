//! The caller that the README of guest_commands shows.
use cmdcodec::{Raw, Sid, Vmid};
use guest_commands::{AttachFault, Ended, Guest, HostStream, Stop};
use smmu_features::Smmu;

#[test]
fn a_guests_queue(rt: HostRuntime) -> Result<(), AttachFault> {
    let smmu = Smmu::from_registers(0x4_1403, 0x210, 0x400, 0x70);
    let vmid = Vmid::new(0x21).expect(&rt, "16 bits");
    let mut guest = Guest::new(rt.alloc(), vmid, smmu).expect(&rt, "a VMID of the host");
    let host = HostStream {
        sid: Sid::new(0x103).expect(&rt, "32 bits"),
        ats: true,
    };
    guest.attach(Sid::new(3).expect(&rt, "32 bits"), host)?;
    // CMD_TLBI_NH_ASID, CMD_ATC_INV of stream 3, and CMD_SYNC, as they were copied from the guest's queue.
    let own = [
        Raw {
            lo: 0x0005_0001_0000_0011,
            hi: 0,
        },
        Raw {
            lo: 0x0000_0003_0000_0040,
            hi: 52,
        },
        Raw { lo: 0x46, hi: 0 },
    ];
    let converted = guest.convert_all(&own);
    let batch = converted.batch().expect(&rt, "not empty");
    let wanted = [
        Raw {
            lo: 0x0005_0021_0000_0011,
            hi: 0,
        },
        Raw {
            lo: 0x0000_0103_0000_0040,
            hi: 52,
        },
    ];
    assert!(rt; batch.as_slice() == wanted.as_slice());
    // Once this batch is complete, the guest's CMD_SYNC is, too.
    assert!(rt; converted.taken() == 2 && converted.ended() == Ended::At(Stop::Sync));
    Ok(())
}
