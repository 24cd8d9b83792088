//! What CMD_ATC_INV reaches. SSV is bit 11, Global bit 9, SubstreamID 31:12 and the StreamID 63:32.
use crate::regions_tests::fields::{region, run, sid, ssid};
use regions::{Accesses, Pages, Region};

#[test]
fn accesses(rt: HostRuntime) {
    let sid = sid(&rt, 7);
    let pages = run(0x10, 0x20);
    let endpoint = |accesses| Region::Endpoint {
        sid,
        accesses,
        pages,
    };
    let of_9 = Accesses::OfSubstream(ssid(&rt, 9));
    // Size 4 and page 0x1c: the sixteen pages from 0x10 on.
    assert_eq!(rt; region(&rt, 0x7_0000_9840, 0x1_c004), endpoint(of_9));
    assert_eq!(rt;
        region(&rt, 0x7_0000_9a40, 0x1_c004),
        endpoint(Accesses::WithSubstream)
    );
    assert_eq!(rt;
        region(&rt, 0x7_0000_9240, 0x1_c004),
        endpoint(Accesses::Every)
    );
    assert_eq!(rt;
        region(&rt, 0x7_0000_9040, 0x1_c004),
        endpoint(Accesses::Every)
    );
}

#[test]
fn pages(rt: HostRuntime) {
    let sid = sid(&rt, 7);
    let endpoint = |pages| Region::Endpoint {
        sid,
        accesses: Accesses::Every,
        pages,
    };
    // Size 0, Size 51 in the upper half, and Size 52.
    assert_eq!(rt;
        region(&rt, 0x7_0000_0040, 0x1_c000),
        endpoint(run(0x1c, 0x1d))
    );
    let upper = run(1 << 51, 1 << 52);
    assert_eq!(rt;
        region(&rt, 0x7_0000_0040, 0xffff_0000_0000_0033),
        endpoint(upper)
    );
    assert_eq!(rt;
        region(&rt, 0x7_0000_0040, 0x1_c034),
        endpoint(Pages::Every)
    );
}
