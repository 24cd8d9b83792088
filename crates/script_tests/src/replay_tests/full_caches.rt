//! Caches that hold as many entries as they may.
use crate::replay_tests::transcripts::expect_answer;
use script::Status;
use std::alloc::{AllocError, Global};
use std::fmt::Write as _;

/// Lines that fill the stream table entries of `streams` streams, each with the number of its stream.
fn fills(alloc: Global, streams: u32) -> Result<String, AllocError> {
    let mut lines = String::new(alloc);
    for stream in 0..streams {
        writeln!(lines, "fill ste {stream} {stream}")?;
    }
    Ok(lines)
}

// The block of 1,024 streams that holds stream 40,000 is removed: 39,936 to 40,959.
#[test]
fn caches_of_65536_entries(rt: HostRuntime) {
    let fills = fills(rt.alloc(), 65_536).expect(&rt, "there is memory");
    let filled = "filled\n"
        .repeat(rt.alloc(), 65_536)
        .expect(&rt, "there is memory");
    let rest = "fill ste 65536 1
send 0 04000000409c00000900000000000000
step
lookup ste 39935
lookup ste 39936
lookup ste 40959
lookup ste 40960
";
    let answered = "refused C1
sent 0 number 1
applied CFGI_STE_RANGE sid=40000 range=9 removed=1024
found value=39935 born=0
absent
absent
found value=40960 born=0
";
    let script = format!(in rt.alloc(); "ring 4 1 4 65536\n{fills}{rest}").expect(
        &rt,
        "there is memory",
    );
    let answers = format!(in rt.alloc(); "ring size 16\n{filled}{answered}").expect(
        &rt,
        "there is memory",
    );
    let name = "65,536 entries, and a block of 1,024 of them";
    expect_answer(&rt, name, script.as_bytes(), answers.as_str(), Status::Good);
}

// All of them are the answer to a single line.
#[test]
fn a_dump_of_65536_entries(rt: HostRuntime) {
    let fills = fills(rt.alloc(), 65_536).expect(&rt, "there is memory");
    let filled = "filled\n"
        .repeat(rt.alloc(), 65_536)
        .expect(&rt, "there is memory");
    let mut entries = String::new(rt.alloc());
    for stream in 0..65_536 {
        writeln!(entries, "entry ste sid={stream} value={stream} born=0").expect(
            &rt,
            "there is memory",
        );
    }
    let dumped = "prod 0x00000000
cons 0x00000000
gerror 0 gerrorn 0
taken 0 applied 0 replaced 0 syncs 0 removed 0
";
    let script = format!(in rt.alloc(); "ring 4 1 4 65536\n{fills}dump\n").expect(
        &rt,
        "there is memory",
    );
    let answers = format!(in rt.alloc(); "ring size 16\n{filled}{dumped}{entries}end\n").expect(
        &rt,
        "there is memory",
    );
    let name = "a dump of 65,536 entries";
    expect_answer(&rt, name, script.as_bytes(), answers.as_str(), Status::Good);
}
