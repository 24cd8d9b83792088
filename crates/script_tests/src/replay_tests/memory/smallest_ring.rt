//! A ring of two slots that is full, is emptied, and is full again.
use super::expect_whole_or_refused;

const SCRIPT: &str = "ring 1 2 8 4
fill ste 5 70
send 0 03000000050000000100000000000000
send 1 03000000050000000100000000000000
step 2
send 1 03000000050000000100000000000000
dump
";

/// The answers to the lines of the script, in order.
const ANSWERS: [&str; 7] = [
    "ring size 2\n",
    "filled\n",
    "sent 0 number 1\n",
    "refused Q2\n",
    "applied CFGI_STE sid=5 leaf=1 removed=1
applied CMD_SYNC cs=1 msh=0 attr=0 data=1 addr=0x40000000 removed=0
",
    "sent 1 number 1\n",
    "prod 0x00000000
cons 0x00000002
gerror 0 gerrorn 0
taken 2 applied 2 replaced 0 syncs 1 removed 1
end
",
];

/// The text if the fill finds no memory.
const REFUSED: [(&str, &str); 1] = [(
    "ring size 2\nrefused C3\n",
    "sent 0 number 1
refused Q2
applied CFGI_STE sid=5 leaf=1 removed=0
applied CMD_SYNC cs=1 msh=0 attr=0 data=1 addr=0x40000000 removed=0
sent 1 number 1
prod 0x00000000
cons 0x00000002
gerror 0 gerrorn 0
taken 2 applied 2 replaced 0 syncs 1 removed 0
end
",
)];

#[test]
fn every_allocation_of_the_smallest_ring(rt: HostRuntime) {
    let outcome = expect_whole_or_refused(&rt, SCRIPT, &ANSWERS, &REFUSED);
    println!(rt; "every_allocation_of_the_smallest_ring: {outcome}").expect(
        &rt,
        "the line is printed",
    );
}
