//! An entry whose tag is filled twice.
use super::expect_whole_or_refused;

const SCRIPT: &str = "ring 4 1 4 8
fill ste 4 1
fill ste 6 3
fill ste 4 9
send 0 04000000050000000000000000000000
step 9
dump
";

/// The answers to the lines of the script, in order.
const ANSWERS: [&str; 7] = [
    "ring size 16\n",
    "filled\n",
    "filled\n",
    "replaced value=1 born=0\n",
    "sent 0 number 1\n",
    "applied CFGI_STE_RANGE sid=5 range=0 removed=1
applied CMD_SYNC cs=1 msh=0 attr=0 data=1 addr=0x40000000 removed=0
empty
",
    "prod 0x00000002
cons 0x00000002
gerror 0 gerrorn 0
taken 2 applied 2 replaced 0 syncs 1 removed 1
entry ste sid=6 value=3 born=0
end
",
];

/// The texts if the first fill finds no memory, so that the third is of a new tag, and if the second finds none, so
/// that its entry isn't told.
const REFUSED: [(&str, &str); 2] = [
    (
        "ring size 16\nrefused C3\nfilled\nfilled\n",
        "sent 0 number 1
applied CFGI_STE_RANGE sid=5 range=0 removed=1
applied CMD_SYNC cs=1 msh=0 attr=0 data=1 addr=0x40000000 removed=0
empty
prod 0x00000002
cons 0x00000002
gerror 0 gerrorn 0
taken 2 applied 2 replaced 0 syncs 1 removed 1
entry ste sid=6 value=3 born=0
end
",
    ),
    (
        "ring size 16\nfilled\nrefused C3\nreplaced value=1 born=0\n",
        "sent 0 number 1
applied CFGI_STE_RANGE sid=5 range=0 removed=1
applied CMD_SYNC cs=1 msh=0 attr=0 data=1 addr=0x40000000 removed=0
empty
prod 0x00000002
cons 0x00000002
gerror 0 gerrorn 0
taken 2 applied 2 replaced 0 syncs 1 removed 1
end
",
    ),
];

#[test]
fn every_allocation_of_a_replaced_entry(rt: HostRuntime) {
    let outcome = expect_whole_or_refused(&rt, SCRIPT, &ANSWERS, &REFUSED);
    println!(rt; "every_allocation_of_a_replaced_entry: {outcome}").expect(
        &rt,
        "the line is printed",
    );
}
