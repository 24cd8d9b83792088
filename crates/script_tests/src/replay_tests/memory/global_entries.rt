//! A translation of one address space and a global one, which are removed one after the other.
use super::expect_whole_or_refused;

const SCRIPT: &str = "ring 4 1 4 8
fill s1 1 2 0x10 0 100
fill s1 1 g 0x10 0 200
send 0 11000000010002000000000000000000
step 2
lookup s1 1 g 0x10 0
send 0 12000000010003000000010000000000
step 2
lookup s1 1 g 0x10 0
";

/// The answers to the lines of the script, in order.
const ANSWERS: [&str; 9] = [
    "ring size 16\n",
    "filled\n",
    "filled\n",
    "sent 0 number 1\n",
    "applied TLBI_NH_ASID vmid=1 asid=2 removed=1
applied CMD_SYNC cs=1 msh=0 attr=0 data=1 addr=0x40000000 removed=0
",
    "found value=200 born=0\n",
    "sent 0 number 2\n",
    "applied TLBI_NH_VA vmid=1 asid=3 leaf=0 addr=0x10000 removed=1
applied CMD_SYNC cs=1 msh=0 attr=0 data=2 addr=0x40000000 removed=0
",
    "absent\n",
];

/// The texts if one of the fills finds no memory.
const REFUSED: [(&str, &str); 2] = [
    (
        "ring size 16\nrefused C3\nfilled\n",
        "sent 0 number 1
applied TLBI_NH_ASID vmid=1 asid=2 removed=0
applied CMD_SYNC cs=1 msh=0 attr=0 data=1 addr=0x40000000 removed=0
found value=200 born=0
sent 0 number 2
applied TLBI_NH_VA vmid=1 asid=3 leaf=0 addr=0x10000 removed=1
applied CMD_SYNC cs=1 msh=0 attr=0 data=2 addr=0x40000000 removed=0
absent
",
    ),
    (
        "ring size 16\nfilled\nrefused C3\n",
        "sent 0 number 1
applied TLBI_NH_ASID vmid=1 asid=2 removed=1
applied CMD_SYNC cs=1 msh=0 attr=0 data=1 addr=0x40000000 removed=0
absent
sent 0 number 2
applied TLBI_NH_VA vmid=1 asid=3 leaf=0 addr=0x10000 removed=0
applied CMD_SYNC cs=1 msh=0 attr=0 data=2 addr=0x40000000 removed=0
absent
",
    ),
];

#[test]
fn every_allocation_of_global_entries(rt: HostRuntime) {
    let outcome = expect_whole_or_refused(&rt, SCRIPT, &ANSWERS, &REFUSED);
    println!(rt; "every_allocation_of_global_entries: {outcome}").expect(
        &rt,
        "the line is printed",
    );
}
