//! The lines that tell why there is no guest, of which a run of the program has some (tests/convert.cases).
use convert::GuestFault;
use guest_commands::AttachFault;

#[test]
fn lines_that_tell_of_no_guest(rt: HostRuntime) {
    assert!(rt; GuestFault::Refused(AttachFault::OutOfRange).line() == "refused V1\n");
    assert!(rt; GuestFault::NoMemory.line() == "no memory\n");
}
