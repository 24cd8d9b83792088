//! The caller that cmdcodec's README shows.
use cmdcodec::{Asid, Command, Ill, Page, Raw, Reach, Vmid, decode, encode};

#[test]
fn one_page_of_an_address_space(rt: HostRuntime) {
    let command = Command::TlbiNhVa {
        vmid: Vmid::new(1).expect(&rt, "16 bits"),
        asid: Asid::new(2).expect(&rt, "16 bits"),
        leaf: true,
        page: Page::new(0x12345).expect(&rt, "52 bits"),
        reach: Reach::Page,
    };
    // In lo ASID 63:48, VMID 47:32 and the opcode 7:0; in hi the address 63:12 and Leaf 0.
    let raw = Raw {
        lo: 0x0002_0001_0000_0012,
        hi: 0x1234_5001,
    };
    assert_eq!(rt; encode(&command), raw);
    assert_eq!(rt; decode(raw), Ok(command));
    // A CMD_CFGI_STE of a Secure stream, which bit 10 says.
    let secure = Raw { lo: 0x0403, hi: 1 };
    assert_eq!(rt; decode(secure), Err(Ill::SecureStream));
}
