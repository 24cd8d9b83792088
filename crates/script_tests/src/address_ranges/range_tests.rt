//! What no command line asks for, or what its text doesn't show.
use cmdcodec::Command;
use ranges::{Asked, Regime, commands, range_text};

/// 513 pages of VMID 1 and ASID 2, for an SMMU without range invalidation.
const PAGES: Asked<'static> = Asked {
    regime: Regime::Stage1,
    vmid: Some("1"),
    asid: Some("2"),
    address: "0",
    length: "0x201000",
    granule: None,
    leaf: false,
    level: None,
    range_invalidation: false,
    most_commands: Some(513),
};

#[test]
fn as_many_commands_as_the_limit(rt: HostRuntime) {
    let first = commands(&PAGES)
        .ok()
        .and_then(|mut commands| commands.next());
    assert!(rt; matches!(first, Some(Command::TlbiNhVa { .. })));
}

#[test]
fn a_vmid_that_is_left_out(rt: HostRuntime) {
    let asked = Asked {
        vmid: None,
        ..PAGES
    };
    let (text, is_good) = range_text(rt.alloc(), &asked).expect(&rt, "there is memory");
    assert_eq!(rt; (text.as_str(), is_good), ("bad vmid\n", false));
}
