//! Level hints of commands: TTL is bits 9:8 of hi.
use cmdcodec::{Asid, Command, Ill, Page, Raw, Reach, Sid};
use range_hints::{Ttl, decode_with_hint, encode_with_hint};
use std::process::Abort;

fn asid_2(rt: &impl Abort) -> Asid {
    Asid::new(2).expect(rt, "16 bits")
}

/// CMD_TLBI_EL2_VA of ASID 2 and page 0x10, for leaves.
fn page_of_the_hypervisor(rt: &impl Abort) -> Command {
    Command::TlbiEl2Va {
        asid: asid_2(rt),
        leaf: true,
        page: Page::new(0x10).expect(rt, "52 bits"),
        reach: Reach::Page,
    }
}

#[test]
fn numbers(rt: HostRuntime) {
    assert_eq!(rt; Ttl::new(0), Some(Ttl::AnyLevel));
    assert_eq!(rt; Ttl::new(3), Some(Ttl::Level3));
    assert_eq!(rt; Ttl::new(4), None);
    assert_eq!(rt; Ttl::Level1.get(), 1);
    assert_eq!(rt; Ttl::Level2.get(), 2);
}

#[test]
fn every_level(rt: HostRuntime) {
    let command = page_of_the_hypervisor(&rt);
    let lo = 0x0002_0000_0000_0022;
    for (ttl, hi) in [
        (Ttl::AnyLevel, 0x1_0001),
        (Ttl::Level1, 0x1_0101),
        (Ttl::Level2, 0x1_0201),
        (Ttl::Level3, 0x1_0301),
    ] {
        let raw = Raw { lo, hi };
        assert_eq!(rt; encode_with_hint(&command, ttl), raw);
        assert!(rt; decode_with_hint(raw) == Ok((command, ttl)));
    }
}

#[test]
fn no_place_for_a_hint(rt: HostRuntime) {
    let sid = Sid::new(5).expect(&rt, "32 bits");
    let command = Command::CfgiSte { sid, leaf: true };
    let raw = Raw {
        lo: 0x5_0000_0003,
        hi: 0x1,
    };
    // Bits 9:8 of hi are no field of a CMD_CFGI_STE.
    assert_eq!(rt; encode_with_hint(&command, Ttl::Level3), raw);
    let more = Raw { hi: 0x301, ..raw };
    assert!(rt; decode_with_hint(more) == Ok((command, Ttl::AnyLevel)));
}

#[test]
fn illegal_words(rt: HostRuntime) {
    let unknown = Raw {
        lo: 0x7f,
        hi: 0x300,
    };
    assert!(rt; decode_with_hint(unknown) == Err(Ill::UnknownOpcode));
}
