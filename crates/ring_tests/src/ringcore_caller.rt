//! The caller that ringcore's README shows.
use cmdcodec::Raw;
use ringcore::{Core, Seen, StepFault};

/// CMD_CFGI_STE of stream 5 with Leaf 1.
const CFGI_STE: Raw = Raw {
    lo: 0x0000_0005_0000_0003,
    hi: 1,
};

/// Reserves two slots, and writes the command into slot 0 and its CMD_SYNC into slot 1.
fn reserve_and_write(core: &mut Core) -> Result<(), StepFault> {
    core.look(Some(0))?;
    core.reserve(0, &[CFGI_STE], true)?;
    for slot in 0..2 {
        core.write(0, slot, 0)?;
        core.write(0, slot, 1)?;
    }
    Ok(())
}

/// Reads both slots, and advances past them.
fn read_and_advance(core: &mut Core) -> Result<(), StepFault> {
    for slot in 0..2 {
        core.read(slot, 0)?;
        core.read(slot, 1)?;
    }
    core.advance(2)?;
    Ok(())
}

#[test]
fn a_batch_step_by_step(rt: HostRuntime) {
    let mut core = Core::new(rt.alloc(), 1, 1).expect(&rt, "a ring of two slots");
    assert_eq!(rt; reserve_and_write(&mut core), Ok(()));
    assert_eq!(rt; core.test(0, 2), Ok(Seen::Ready(0)));
    assert!(rt; core.flip(0, 0, 2).is_ok());
    assert_eq!(rt; core.test(0, 2), Ok(Seen::Ready(2)));
    // F4: what is advanced past was read.
    assert_eq!(rt; core.advance(2), Err(StepFault::HalfMissing));
    assert_eq!(rt; read_and_advance(&mut core), Ok(()));
    assert_eq!(rt; core.ask(0), Ok(Seen::Done(0)));
    assert!(rt; core.acknowledge(0, 1).is_ok());
    assert_eq!(rt; core.ask(0), Ok(Seen::Done(1)));
}
