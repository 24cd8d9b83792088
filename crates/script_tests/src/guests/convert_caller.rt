//! The caller in the README of convert.
use convert::{Asked, convert_with_notes};
use script::Status;

#[test]
fn a_guests_log(rt: HostRuntime) {
    let streams = ["3=0x103,ats"];
    let asked = Asked {
        vmid: "33",
        streams: &streams,
        range_invalidation: true,
        ats: true,
        wide_ids: true,
        substream_bits: None,
    };
    let guest = asked
        .guest(rt.alloc())
        .expect(&rt, "a VMID and a stream of the host");
    // CMD_TLBI_NH_ASID, and a CMD_SYNC.
    let mut input = "0x0005000700000011 0x0\n0x46 0x0\n".as_bytes();
    let mut output = Vec::new(rt.alloc());
    let (status, _) = convert_with_notes(rt.alloc(), guest, &mut input, &mut output);
    assert!(rt; status == Status::Good);
    let text = "11000000210005000000000000000000 TLBI_NH_ASID vmid=33 asid=5\nsync\n";
    assert!(rt; output.as_slice() == text.as_bytes());
}
