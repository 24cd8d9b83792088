//! Worked rows, by calls: an illegal command inside a batch, a stop while the ring is closed, runs of commands, and
//! entries that are filled before and after commands.
ghost use Rattle.std.specs.Prelude.{◌≡◌, ◌≤◌};

use crate::calls::{Parts, expect_answers, finish, start};
use crate::commands::ILLEGAL;
use batch::Batch;
use engine::{Engine, Remedy, RunAnswer};
use ring::Ring;
use std::process::Abort;

/// Makes the calls of a text on a new ring of `2^log2` slots with one sender. Expects the answers, and at the end that
/// all that was reserved is taken.
fn row<R: AllocGlobal + Abort>(rt: &R, log2: u32, calls: &str) {
    let (ring, senders, parts) = start(rt, log2, 100, 8);
    let parts = expect_answers(rt, &ring, parts, calls);
    let end = finish(rt, ring, senders, parts);
    assert_eq!(rt; end.summary.taken(), end.summary.reserved());
    assert_eq!(rt; end.summary.taken(), end.counts.taken());
}

/// Stops at an illegal command and replaces it, `times` times, and returns how often both happened.
fn replace_each(ring: &Ring, engine: &mut Engine, times: u32) -> u32
    requires { engine.old.consumer.ring ≡ ring.now }
    ensures ring { engine.new.consumer.ring ≡ ring.now }
    ensures most { result ≤ times }
{
    let mut replaced = 0;
    for _ in 0..times {
        let stopped = matches!(engine.step_run(ring, 64), RunAnswer::Stopped(_));
        let (_, gerror, _) = engine.error();
        let acknowledged = engine.acknowledge(gerror, Remedy::Replace).is_ok();
        let taken = matches!(engine.step_run(ring, 64), RunAnswer::Replaced(_));
        if stopped && acknowledged && taken {
            replaced += 1;
        }
    }
    replaced
}

#[test]
fn a_run_of_illegal_commands(rt: HostRuntime) {
    let (ring, senders, parts) = start(&rt, 6, 1, 1);
    let Parts { sender, mut engine } = parts;
    let illegal = Batch::from_raws(&[ILLEGAL; 63]).expect(&rt, "63 commands");
    let Ok((sender, _receipt)) = sender.send(&ring, &illegal, 1) else {
        panic!(rt; "the batch is refused");
    };
    assert_eq!(rt; replace_each(&ring, &mut engine, 63), 63);
    let parts = expect_answers(
        &rt,
        &ring,
        Parts { sender, engine },
        "run = applied 1 removed=0
run = empty
done = 1
counts = taken 64 applied 1 replaced 63 syncs 1 removed 0",
    );
    let end = finish(&rt, ring, senders, parts);
    assert_eq!(rt; end.summary.reserved(), 64);
}

#[test]
fn an_illegal_command_inside_a_batch(rt: HostRuntime) {
    row(
        &rt,
        3,
        "send X F = number 1
step = applied CFGI_STE sid=5 leaf=1 removed=0
step = stopped ILL1: unknown opcode
registers = prod 3 cons 16777217 gerror 1 gerrorn 0
counts = taken 1 applied 1 replaced 0 syncs 0 removed 0
step = still stopped
stopped = true
ack 0 retry = refused G2
ack 4294967294 retry = refused G2
ack 3 retry = acknowledged
stopped = false
step = stopped ILL1: unknown opcode
registers = prod 3 cons 16777217 gerror 0 gerrorn 1
error = 1 0 1
ack 1 replace = refused G2
ack 0 replace = acknowledged
ack 0 retry = refused G1
error = 0 0 0
step = replaced ILL1: unknown opcode
step = applied CMD_SYNC cs=1 msh=0 attr=0 data=1 addr=0x40000000 removed=0
step = empty
ack 0 retry = refused G1
done = 1
registers = prod 3 cons 3 gerror 0 gerrorn 0
counts = taken 3 applied 2 replaced 1 syncs 1 removed 0",
    );
}

#[test]
fn stopped_in_a_closed_ring(rt: HostRuntime) {
    row(
        &rt,
        3,
        "send F = number 1
step = stopped ILL1: unknown opcode
close = closed
step = still stopped
run = still stopped
done = 0
ack 1 replace = acknowledged
run = replaced ILL1: unknown opcode
run = applied 1 removed=0
step = drained
run = drained
done = 1",
    );
}

#[test]
fn runs_end_at_an_illegal_command(rt: HostRuntime) {
    row(
        &rt,
        4,
        "send X X F X = number 1
run = applied 2 removed=0
run = stopped ILL1: unknown opcode
step = still stopped
ack 1 replace = acknowledged
run = replaced ILL1: unknown opcode
run = applied 2 removed=0
run = empty
done = 1
send F = number 2
run = stopped ILL1: unknown opcode
ack 0 retry = acknowledged
step = stopped ILL1: unknown opcode
ack 1 replace = acknowledged
step = replaced ILL1: unknown opcode
run = applied 1 removed=0
counts = taken 7 applied 5 replaced 2 syncs 2 removed 0",
    );
}

#[test]
fn entries_before_and_after_commands(rt: HostRuntime) {
    row(
        &rt,
        4,
        "entries = 0
fill 5 100 = none
fill 5 101 = value=100 born=0
fill 6 102 = none
entries = 2
lookup 5 = value=101 born=0
send X F X = number 1
run = applied 1 removed=1
lookup 5 = none
fill 5 103 = none
run = stopped ILL1: unknown opcode
fill 7 104 = none
lookup 7 = value=104 born=1
entries = 3
ack 1 replace = acknowledged
run = replaced ILL1: unknown opcode
lookup 5 = value=103 born=1
run = applied 2 removed=1
lookup 5 = none
evict 6 = value=102 born=0
evict 6 = none
entries = 1
evict_all = 1
entries = 0
counts = taken 4 applied 3 replaced 1 syncs 1 removed 2",
    );
}

#[test]
fn entries_of_before_some_commands(rt: HostRuntime) {
    row(
        &rt,
        4,
        "fill 6 100 = none
send X X = number 1
step = applied CFGI_STE sid=5 leaf=1 removed=0
fill 7 101 = none
run = applied 2 removed=0
fill 8 102 = none
evict_older 0 = 0
evict_older 1 = 1
lookup 6 = none
lookup 7 = value=101 born=1
evict_older 4 = 2
entries = 0",
    );
}
