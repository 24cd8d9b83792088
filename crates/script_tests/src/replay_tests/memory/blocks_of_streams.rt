//! A block of two streams is removed, and one of the streams is filled again.
use super::expect_whole_or_refused;

const SCRIPT: &str = "ring 4 1 4 8
fill ste 4 1
fill ste 5 2
fill ste 6 3
fill cd 5 1 9
send 0 04000000050000000000000000000000
step 2
fill ste 5 8
dump
";

/// The answers to the lines of the script, in order.
const ANSWERS: [&str; 9] = [
    "ring size 16\n",
    "filled\n",
    "filled\n",
    "filled\n",
    "filled\n",
    "sent 0 number 1\n",
    "applied CFGI_STE_RANGE sid=5 range=0 removed=3
applied CMD_SYNC cs=1 msh=0 attr=0 data=1 addr=0x40000000 removed=0
",
    "filled\n",
    "prod 0x00000002
cons 0x00000002
gerror 0 gerrorn 0
taken 2 applied 2 replaced 0 syncs 1 removed 3
entry ste sid=5 value=8 born=2
entry ste sid=6 value=3 born=0
end
",
];

/// What follows the first fills if one that the command covers was refused.
const TWO_REMOVED: &str = "sent 0 number 1
applied CFGI_STE_RANGE sid=5 range=0 removed=2
applied CMD_SYNC cs=1 msh=0 attr=0 data=1 addr=0x40000000 removed=0
filled
prod 0x00000002
cons 0x00000002
gerror 0 gerrorn 0
taken 2 applied 2 replaced 0 syncs 1 removed 2
entry ste sid=5 value=8 born=2
entry ste sid=6 value=3 born=0
end
";

/// What follows the first fills if that of stream 6 was refused.
const NO_STREAM_6: &str = "sent 0 number 1
applied CFGI_STE_RANGE sid=5 range=0 removed=3
applied CMD_SYNC cs=1 msh=0 attr=0 data=1 addr=0x40000000 removed=0
filled
prod 0x00000002
cons 0x00000002
gerror 0 gerrorn 0
taken 2 applied 2 replaced 0 syncs 1 removed 3
entry ste sid=5 value=8 born=2
end
";

/// What follows the first fills if the last fill is refused.
const NO_STREAM_5: &str = "sent 0 number 1
applied CFGI_STE_RANGE sid=5 range=0 removed=3
applied CMD_SYNC cs=1 msh=0 attr=0 data=1 addr=0x40000000 removed=0
refused C3
prod 0x00000002
cons 0x00000002
gerror 0 gerrorn 0
taken 2 applied 2 replaced 0 syncs 1 removed 3
entry ste sid=6 value=3 born=0
end
";

/// The texts if one of the fills finds no memory.
const REFUSED: [(&str, &str); 5] = [
    (
        "ring size 16\nrefused C3\nfilled\nfilled\nfilled\n",
        TWO_REMOVED,
    ),
    (
        "ring size 16\nfilled\nrefused C3\nfilled\nfilled\n",
        TWO_REMOVED,
    ),
    (
        "ring size 16\nfilled\nfilled\nrefused C3\nfilled\n",
        NO_STREAM_6,
    ),
    (
        "ring size 16\nfilled\nfilled\nfilled\nrefused C3\n",
        TWO_REMOVED,
    ),
    (
        "ring size 16\nfilled\nfilled\nfilled\nfilled\n",
        NO_STREAM_5,
    ),
];

#[test]
fn every_allocation_of_blocks_of_streams(rt: HostRuntime) {
    let outcome = expect_whole_or_refused(&rt, SCRIPT, &ANSWERS, &REFUSED);
    println!(rt; "every_allocation_of_blocks_of_streams: {outcome}").expect(
        &rt,
        "the line is printed",
    );
}
