//! The caller that program's README shows.
use program::{Watched, program};

#[test]
fn a_word_of_the_command_line(rt: HostRuntime) {
    let words = ["decode", "12302000010002000004010000000000"];
    let mut input = "".as_bytes();
    let mut output = Watched::new(Vec::new(rt.alloc()));
    let mut faults = Watched::new(Vec::new(rt.alloc()));
    let status = program(&rt, &words, &mut input, &mut output, &mut faults);
    assert_eq!(rt; status, 0);
    let text = "TLBI_NH_VA vmid=1 asid=2 leaf=0 addr=0x10000 tg=1 num=3 scale=2\n";
    assert_eq!(rt; output.inner().as_slice(), text.as_bytes());
    assert!(rt; faults.inner().is_empty());
}
