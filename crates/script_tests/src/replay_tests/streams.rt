//! Lines of all kinds in one script, in pieces of several lengths, and from a reader and to a writer that fail.
use crate::replay_tests::transcripts::{answered, halves, status_of};
use fake_streams::{Sink, Source};
use script::Status;
use std::alloc::Global;
use std::io::ErrorKind;
use std::process::Abort;

const PIPE: ErrorKind = ErrorKind::BrokenPipe;

const TRANSCRIPT: &str = "> # Two drivers share a ring of 16 slots.
> ring 4 2 5 8
ring size 16
> fill ste 5 50
filled
> fill cd 5 1 51
filled
> fill ste 6 60
filled
> fill s1 1 2 0x100 4 70
filled
> fill s1 1 g 0x100 0 71
filled
> fill s2 1 0x100 0 72
filled
> fill el2 7 0x100 0 73
filled
> fill atc 5 - 0x100 0 74
filled
> fill atc 5 9 0x100 0 75
refused C1
> fill s1 1 2 0x101 4 76
refused C2
> fill ste 6 61
replaced value=60 born=0
> evict el2 7 0x100 0
evicted value=73 born=0
> lookup el2 7 0x100 0
absent
> open 0 03000000060000000100000000000000
opened 0 number 1 first 0
> bare 1 ff000000000000000000000000000000
sent 1 bare
> step
unwritten
> look 1
control 3 0 open
> inval 1 1 2 0x100 16
sent 1 number 1
> publish 0
published 0 number 1
> step 9
applied CFGI_STE sid=6 leaf=1 removed=1
applied CMD_SYNC cs=1 msh=0 attr=0 data=1 addr=0x40000000 removed=0
stopped ILL1
> ack 0 retry
refused G2
> ack 1 retry
acknowledged
> step
stopped ILL1
> dump
prod 0x00000005
cons 0x01000002
gerror 0 gerrorn 1
taken 2 applied 2 replaced 0 syncs 1 removed 1
entry ste sid=5 value=50 born=0
entry cd sid=5 ssid=1 value=51 born=0
entry s1 vmid=1 global page=0x100 span=0 value=71 born=0
entry s1 vmid=1 asid=2 page=0x100 span=4 value=70 born=0
entry s2 vmid=1 page=0x100 span=0 value=72 born=0
entry atc sid=5 ssid=none page=0x100 span=0 value=74 born=0
end
> ack 0 replace
acknowledged
> step 9
replaced ILL1
applied TLBI_NH_VA vmid=1 asid=2 leaf=1 addr=0x100000 tg=1 num=0 scale=4 removed=2
applied CMD_SYNC cs=1 msh=0 attr=0 data=1 addr=0x40000004 removed=0
empty
>\x20
> # Entries of the hypervisor, and a stream beside stream 5.
> fill el2 g 0x20 3 80
filled
> fill el2 9 0x20 0 81
filled
> fill ste 4 82
filled
> lookup el2 g 0x20 3
found value=80 born=5
> openbare 0 22000000000009000100020000000000 21000000000009000000000000000000
opened 0 bare first 5
> look 1
control 7 5 open
> step
unwritten
> send 1 04000000050000000000000000000000
sent 1 number 2
> publish 0
published 0 bare
> done 0
done 0 up to 1
> step 2
applied TLBI_EL2_VA asid=9 leaf=1 addr=0x20000 removed=2
applied TLBI_EL2_ASID asid=9 removed=0
> step
applied CFGI_STE_RANGE sid=5 range=0 removed=3
> fill ste 5 90
filled
> step 2
applied CMD_SYNC cs=1 msh=0 attr=0 data=2 addr=0x40000004 removed=0
empty
> lookup ste 5
found value=90 born=8
> lookup cd 5 1
absent
>\x20\x20\x20
> # What is refused changes nothing.
> send 0
refused B5
> send 0 46100000010000000000004000000000
refused B2
> inval 0 1 2 0x100 0
refused B3
> inval 0 1 2 0xfffffffffffff 2
refused B4
> inval 0 1 2 0 4398046511104
refused B1
> evict ste 7
absent
> ack 1 replace
refused G1
> detach 1 5
sent 1 number 3
> openbare 0 40000000050000003500000000000000
opened 0 bare first 13
> look 1
control 14 9 open
> inval 1 1 2 0 0xb000000000
refused Q2
> inval 1 1 2 0 0x10000000000
refused Q4
> step 3
applied CFGI_STE sid=5 leaf=1 removed=1
applied CFGI_CD_ALL sid=5 removed=0
applied ATC_INV sid=5 ssv=0 ssid=0 global=0 size=52 addr=0x0 removed=1
> step 2
applied CMD_SYNC cs=1 msh=0 attr=0 data=3 addr=0x40000004 removed=0
unwritten
> publish 0
published 0 bare
> step 64
stopped ILL4
> step
still stopped
> look 0
control 14 13 open
> fill cd 5 1 95
filled
> dump
prod 0x0000000e
cons 0x0100000d
gerror 1 gerrorn 0
taken 13 applied 12 replaced 1 syncs 4 removed 10
entry cd sid=5 ssid=1 value=95 born=13
entry s2 vmid=1 page=0x100 span=0 value=72 born=0
end
> ack 1 replace
acknowledged
> step
replaced ILL4
> step
empty
> open 1 05100000050000000100000000000000
opened 1 number 4 first 14
> close 0
closed
> send 0 03000000050000000100000000000000
refused Q1
> step 5
unwritten
> look 0
control 16 14 closed
> publish 1
published 1 number 4
> bare 1 03000000050000000100000000000000
refused Q5
> step 5
applied CFGI_CD sid=5 ssid=1 leaf=1 removed=1
applied CMD_SYNC cs=1 msh=0 attr=0 data=4 addr=0x40000004 removed=0
drained
> done 0
done 0 up to 1
> done 1
done 1 up to 4
> evict s2 1 0x100 0
evicted value=72 born=0
> dump
prod 0x00000010
cons 0x00000010
gerror 1 gerrorn 1
taken 16 applied 14 replaced 2 syncs 5 removed 11
end
";

/// Replays a script, and expects this status and exactly this text. Reader and writer are each given how many bytes a
/// call moves at most, and which call fails.
fn expect_through<R: AllocGlobal + Abort>(
    rt: &R,
    script: &str,
    (read, bad_read): (usize, usize),
    (written, bad_write): (usize, usize),
    wanted: (Status, Option<&str>),
) {
    let mut input = Source::new(script.as_bytes(), read, bad_read, PIPE);
    let mut output = Sink::new(written, bad_write, PIPE);
    let ended = status_of(rt.alloc(), &mut input, &mut output);
    assert_eq!(rt;
        (ended, Some(output.text())),
        wanted,
        "read {bad_read} by {read}, write {bad_write} by {written}"
    );
}

// The pieces of reads and of writes have these lengths at most.
#[test]
fn answers_do_not_depend_on_the_pieces(rt: HostRuntime) {
    let (script, answers) = halves(rt.alloc(), TRANSCRIPT).expect(&rt, "there is memory");
    for (read, written) in [(1, 1), (1, 100_000), (100_000, 1), (2, 3), (7, 64), (33, 5)] {
        let wanted = (Status::Good, Some(answers.as_str()));
        expect_through(&rt, script.as_str(), (read, 0), (written, 0), wanted);
    }
}

/// Whether the first `bytes` bytes of a text end with a line, or lack only its end.
fn is_at_the_end_of_a_line(text: &str, bytes: usize) -> bool {
    let (front, rest) = text.split_at_checked(bytes).unwrap_or((text, ""));
    front.ends_with("\n") || rest.starts_with("\n")
}

// One read gives that many bytes, and the next fails.
#[test]
fn a_read_that_fails_at_the_end_of_each_line(rt: HostRuntime) {
    let (script, answers) = halves(rt.alloc(), TRANSCRIPT).expect(&rt, "there is memory");
    for read in 1..=script.len() {
        if !is_at_the_end_of_a_line(script.as_str(), read) {
            continue;
        }
        let told = answered(TRANSCRIPT, read);
        let wanted = (Status::ReadFailed, answers.get(..told));
        expect_through(&rt, script.as_str(), (read, 2), (100_000, 0), wanted);
    }
}

/// The lines of a script up to the first empty one.
fn first_part(script: &str) -> &str {
    let (part, _) = script.split_once("\n\n").unwrap_or((script, ""));
    part
}

/// Has each read fail in turn, with `most` bytes a read, and expects exactly the answers to the lines whose ends were
/// read. The read after the last byte finds the end.
fn expect_failed_reads<R: AllocGlobal + Abort>(rt: &R, script: &str, answers: &str, most: usize) {
    for calls in 0..=script.len().div_ceil(most.max(1)) {
        let read = calls.saturating_mul(most).min(script.len());
        let told = answered(TRANSCRIPT, read);
        let wanted = (Status::ReadFailed, answers.get(..told));
        expect_through(rt, script, (most, calls.saturating_add(1)), (5, 0), wanted);
    }
}

#[test]
fn each_read_fails_in_turn(rt: HostRuntime) {
    let (script, answers) = halves(rt.alloc(), TRANSCRIPT).expect(&rt, "there is memory");
    let (script, answers) = (script.as_str(), answers.as_str());
    expect_failed_reads(&rt, script, answers, 7);
    expect_failed_reads(&rt, first_part(script), answers, 1);
}

/// How many writes a script takes if each read gives seven bytes and each write takes at most `most`.
fn writes(alloc: Global, script: &str, most: usize) -> usize {
    let mut input = Source::new(script.as_bytes(), 7, 0, PIPE);
    let mut output = Sink::new(most, 0, PIPE);
    status_of(alloc, &mut input, &mut output);
    output.calls
}

/// Has each write fail in turn, and expects a beginning of the answers.
fn expect_failed_writes<R: AllocGlobal + Abort>(rt: &R, script: &str, answers: &str, most: usize) {
    for bad in 1..=writes(rt.alloc(), script, most) {
        let mut input = Source::new(script.as_bytes(), 7, 0, PIPE);
        let mut output = Sink::new(most, bad, PIPE);
        let ended = status_of(rt.alloc(), &mut input, &mut output);
        let outcome = (ended, output.calls, answers.starts_with(output.text()));
        assert_eq!(rt;
            outcome,
            (Status::WriteFailed, bad, true),
            "{bad} by {most}"
        );
    }
}

#[test]
fn each_write_fails_in_turn(rt: HostRuntime) {
    let (script, answers) = halves(rt.alloc(), TRANSCRIPT).expect(&rt, "there is memory");
    let (script, answers) = (script.as_str(), answers.as_str());
    expect_failed_writes(&rt, script, answers, 7);
    expect_failed_writes(&rt, first_part(script), answers, 1);
}

// All answers are written at once: the first write takes some of the bytes, and the second fails.
#[test]
fn what_a_write_took_stays(rt: HostRuntime) {
    let (script, answers) = halves(rt.alloc(), TRANSCRIPT).expect(&rt, "there is memory");
    for tenth in 0..10 {
        let taken = answers.len() / 10 * tenth;
        let wanted = (Status::WriteFailed, answers.get(..taken));
        expect_through(&rt, script.as_str(), (100_000, 0), (taken, 2), wanted);
    }
}

// Each read gives one byte, and each write takes two.
#[test]
fn an_interrupted_call_is_made_again(rt: HostRuntime) {
    let (script, answers) = halves(rt.alloc(), TRANSCRIPT).expect(&rt, "there is memory");
    let script = first_part(script.as_str());
    // The last line of the part lacks its end.
    let told = answered(TRANSCRIPT, script.len().saturating_add(1));
    for bad in 1..100 {
        let mut input = Source::new(script.as_bytes(), 1, bad, ErrorKind::Interrupted);
        let mut output = Sink::new(2, bad, ErrorKind::Interrupted);
        let ended = status_of(rt.alloc(), &mut input, &mut output);
        let outcome = (ended, Some(output.text()));
        assert_eq!(rt; outcome, (Status::Good, answers.get(..told)), "{bad}");
    }
}
