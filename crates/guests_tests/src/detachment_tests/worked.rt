//! The words of both batches, by hand from the standard's layouts.
use crate::detachment_tests::making::{bare, smmu};
use cmdcodec::{Raw, Sid};
use detachment::Detachment;

#[test]
fn words_of_a_stream(rt: HostRuntime) {
    let sid = Sid::new(0x12_3456).expect(&rt, "32 bits");
    let detachment = Detachment::new(sid, &smmu(), true);
    assert_eq!(rt; (detachment.sid(), detachment.has_ats()), (sid, true));
    // CMD_CFGI_STE has Leaf in bit 64, all have the StreamID in bits 63:32.
    let entry = Raw {
        lo: 0x0012_3456_0000_0003,
        hi: 1,
    };
    let descriptors = Raw {
        lo: 0x0012_3456_0000_0006,
        hi: 0,
    };
    assert_eq!(rt;
        detachment.configuration().as_slice(),
        &[entry, descriptors][..]
    );
    // CMD_ATC_INV has SSV in bit 11, Global in bit 9 and Size in bits 69:64.
    let pages = Raw {
        lo: 0x0012_3456_0000_0040,
        hi: 52,
    };
    let endpoint = detachment
        .endpoint()
        .expect(&rt, "SMMU and endpoint have ATS");
    assert_eq!(rt; endpoint.as_slice(), &[pages][..]);
}

#[test]
fn words_without_stage_1_and_without_ats(rt: HostRuntime) {
    let sid = Sid::new(0x12_3456).expect(&rt, "32 bits");
    let entry = Raw {
        lo: 0x0012_3456_0000_0003,
        hi: 1,
    };
    let detachment = Detachment::new(sid, &bare(), true);
    assert_eq!(rt; detachment.configuration().as_slice(), &[entry][..]);
    assert!(rt; detachment.endpoint().is_none());
    assert!(rt; Detachment::new(sid, &smmu(), false).endpoint().is_none());
}
