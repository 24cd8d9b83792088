//! The caller that range_hints' README shows.
use cmdcodec::{Command, Ill, Raw, Vmid};
use range_hints::{decode_with_hint, encode_with_hint};

/// The words of a guest's command as the host sends them, with the host's VMID in place of the guest's.
fn forwarded(raw: Raw, vmid: Vmid) -> Result<Raw, Ill> {
    let (command, ttl) = decode_with_hint(raw)?;
    let command = match command {
        Command::TlbiNhVa {
            asid,
            leaf,
            page,
            reach,
            ..
        } => Command::TlbiNhVa {
            vmid,
            asid,
            leaf,
            page,
            reach,
        },
        other => other,
    };
    Ok(encode_with_hint(&command, ttl))
}

#[test]
fn a_hint_on_its_way(rt: HostRuntime) {
    let host = Vmid::new(9).expect(&rt, "16 bits");
    // CMD_TLBI_NH_VA of VMID 1, ASID 2: a page at level 3, TG 1.
    let raw = Raw {
        lo: 0x0002_0001_0000_0012,
        hi: 0x1_0701,
    };
    let words = Raw {
        lo: 0x0002_0009_0000_0012,
        hi: 0x1_0701,
    };
    assert_eq!(rt; forwarded(raw, host), Ok(words));
}
