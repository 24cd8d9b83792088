//! The caller that ranges' README shows.
use ranges::{Asked, Regime, range_text};
use std::alloc::AllocError;

#[test]
fn two_pages_of_a_driver(rt: HostRuntime) -> Result<(), AllocError> {
    let asked = Asked {
        regime: Regime::Stage1,
        vmid: Some("1"),
        asid: Some("2"),
        address: "0x10000",
        length: "8192",
        granule: None,
        leaf: true,
        level: Some(3),
        range_invalidation: true,
        most_commands: None,
    };
    let (text, is_good) = range_text(rt.alloc(), &asked)?;
    // TTL 3 is in the digits alone.
    let line = "12001000010002000107010000000000 \
                TLBI_NH_VA vmid=1 asid=2 leaf=1 addr=0x10000 tg=1 num=0 scale=1\n";
    assert_eq!(rt; (text.as_str(), is_good), (line, true));
    Ok(())
}
