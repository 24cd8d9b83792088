//! Words of CMD_ATC_INV: as Linux's driver sends them, and worked out by hand.
ghost use Rattle.std.specs.Prelude.{◌≤◌};

use crate::expecting::smmu;
use cmdcodec::{Page, Raw, Sid, Ssid, encode};
use invalidations::{ByteRange, Bytes, Endpoint, InvalidationFault, Substreams};
use smmu_features::Smmu;
use std::process::Abort;

fn endpoint<R: AllocGlobal + Abort>(rt: &R, sid: u64, substreams: Substreams) -> Endpoint {
    Endpoint {
        sid: Sid::new(sid).expect(rt, "32 bits"),
        substreams,
    }
}

fn one<R: AllocGlobal + Abort>(rt: &R, ssid: u64) -> Substreams {
    Substreams::One(Ssid::new(ssid).expect(rt, "20 bits"))
}

fn words(endpoint: &Endpoint, bytes: &Bytes) -> Option<Raw> {
    match endpoint.invalidate(bytes, &smmu()) {
        Ok(Some(command)) => Some(encode(&command)),
        _ => None,
    }
}

#[test]
fn everything(rt: HostRuntime) {
    let endpoint = endpoint(&rt, 0xc9cf, Substreams::All);
    let wanted = Raw {
        lo: 0xc9cf_0000_0040,
        hi: 0x34,
    };
    assert!(rt; words(&endpoint, &Bytes::Everything) == Some(wanted));
}

#[test]
fn bytes_of_a_substream(rt: HostRuntime) {
    let endpoint = endpoint(&rt, 0x93ea, one(&rt, 804_991));
    let bytes = Bytes::Range(ByteRange {
        first: 0xe65f_01c5_c000,
        length: 0xcf_5000,
    });
    let wanted = Raw {
        lo: 0x93ea_c487_f840,
        hi: 0xe65f_0000_000e,
    };
    assert!(rt; words(&endpoint, &bytes) == Some(wanted));
}

#[test]
fn a_page_of_a_substream(rt: HostRuntime) {
    let endpoint = endpoint(&rt, 0x2674, one(&rt, 665_609));
    let bytes = Bytes::Range(ByteRange {
        first: 0x2165_3e5e_5000,
        length: 0x1000,
    });
    let wanted = Raw {
        lo: 0x2674_a280_9840,
        hi: 0x2165_3e5e_5000,
    };
    assert!(rt; words(&endpoint, &bytes) == Some(wanted));
}

/// Two bytes on both sides of 4 GiB need 8 GiB; no byte needs no command.
#[test]
fn bytes_of_each_substream(rt: HostRuntime) {
    let endpoint = endpoint(&rt, 9, Substreams::Each);
    let bytes = Bytes::Range(ByteRange {
        first: 0xffff_ffff,
        length: 2,
    });
    let wanted = Raw {
        lo: 0x0000_0009_0000_0a40,
        hi: 21,
    };
    assert!(rt; words(&endpoint, &bytes) == Some(wanted));
    let none = Bytes::Range(ByteRange {
        first: 5,
        length: 0,
    });
    assert!(rt; endpoint.invalidate(&none, &smmu()) == Ok(None));
}

#[test]
fn what_is_refused(rt: HostRuntime) {
    let endpoint = endpoint(&rt, 9, Substreams::All);
    let past = Bytes::Range(ByteRange {
        first: u64::MAX,
        length: 2,
    });
    assert!(rt; endpoint.invalidate(&past, &smmu()) == Err(InvalidationFault::PastEnd));
    let without_ats = Smmu::from_registers(0x203, 0, 0x400, 0x70);
    let refused = endpoint.invalidate(&Bytes::Everything, &without_ats);
    assert!(rt; refused == Err(InvalidationFault::Unsupported));
}

/// SubstreamIDs of 8 bits, and none.
#[test]
fn substreams_that_an_smmu_lacks(rt: HostRuntime) {
    let with_8_bits = Smmu::from_registers(0x603, 0x200, 0x400, 0x70);
    let without = Smmu::from_registers(0x603, 0, 0x400, 0x70);
    let refused = Err(InvalidationFault::Unsupported);
    let too_wide = endpoint(&rt, 9, one(&rt, 256));
    assert!(rt; too_wide.invalidate(&Bytes::Everything, &with_8_bits) == refused);
    let last = endpoint(&rt, 9, one(&rt, 255));
    assert!(rt; last.invalidate(&Bytes::Everything, &with_8_bits).is_ok());
    let each = endpoint(&rt, 9, Substreams::Each);
    assert!(rt; each.invalidate(&Bytes::Everything, &without) == refused);
}

/// The high word of the command for the pages from `first` to `last`.
fn block<R: AllocGlobal + Abort>(rt: &R, first: u64, last: u64) -> u64
    requires { first ≤ last }
{
    let endpoint = endpoint(rt, 9, Substreams::All);
    let first = Page::new(first).expect(rt, "52 bits");
    let last = Page::new(last).expect(rt, "52 bits");
    encode(&endpoint.command(first, last)).hi
}

#[test]
fn blocks_of_pages(rt: HostRuntime) {
    assert_eq!(rt; block(&rt, 7, 8), 0x4);
    assert_eq!(rt; block(&rt, 8, 11), 0x8002);
    assert_eq!(rt; block(&rt, 5, 5), 0x5000);
}
