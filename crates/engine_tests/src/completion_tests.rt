//! Whose CMD_SYNCs a run of the engine completed.
use crate::commands::LEGAL;
use batch::Batch;
use caches::Caches;
use engine::{Completion, Engine, RunAnswer};
use ring::{Ring, RingFault};

// Two senders send a batch each, and between them a third sends one without a CMD_SYNC.
#[test]
fn a_run_tells_whose_syncs_it_completed(rt: HostRuntime) -> Result<(), RingFault> {
    let (ring, mut senders, consumer) = Ring::new(rt.alloc(), 4, 3, 100)?;
    let third = senders.pop().expect(&rt, "three senders");
    let second = senders.pop().expect(&rt, "three senders");
    let first = senders.pop().expect(&rt, "three senders");
    let caches = Caches::new(rt.alloc(), 1).expect(&rt, "caches");
    let mut engine = Engine::new(consumer, caches);
    let batch = Batch::new(LEGAL).expect(&rt, "no CMD_SYNC");
    assert!(rt; first.send(&ring, &batch, 1).is_ok());
    assert!(rt; third.send_bare(&ring, &batch, 1).is_ok());
    assert!(rt; second.send(&ring, &batch, 1).is_ok());
    let mut completions = [Completion::default(); 64];
    let told = engine.step_run_telling(&ring, 64, &mut completions);
    let (count, removed) = (5, 0);
    assert_eq!(rt; told, (RunAnswer::Applied { count, removed }, 2));
    let (sender, number) = (0, 1);
    assert_eq!(rt; completions[0], Completion { sender, number });
    assert_eq!(rt; completions[1], Completion { sender: 1, number });
    assert_eq!(rt; completions[2], Completion::default());
    Ok(())
}
