//! A stream that is detached for real.
ghost use Rattle.std.specs.Prelude.{◌≡◌, []};

use crate::guest_table_tests::making::wide;
use caches::Caches;
use detachment::{Detached, Detachment, Next};
use engine::{Engine, RunAnswer};
use guest_commands::HostStream;
use ring::{Ring, RingFault};
use std::alloc::Global;
use std::process::Abort;

/// Detaches the stream, which has ATS, through a ring and an engine of its own.
pub fn detach<R: Abort>(rt: &R, alloc: Global, host: HostStream) -> Result<Detached, RingFault> {
    let (ring, mut senders, consumer) = Ring::new(alloc, 3, 1, 100)?;
    let sender = senders.pop().expect(rt, "one sender");
    let caches = Caches::new(alloc, 8).expect(rt, "1 to 65,536");
    let mut engine = Engine::new(consumer, caches);
    let detachment = Detachment::new(host.sid, &wide(), host.ats);
    let Ok((mut sender, configuring)) = detachment.send(&ring, sender, 1) else {
        panic!(rt; "the batch is refused");
    };
    let (count, removed) = (3, 0);
    assert_eq!(rt;
        engine.step_run(&ring, 64),
        RunAnswer::Applied { count, removed }
    );
    let Ok(Next::Endpoint(configured)) = configuring.look(&ring, &mut sender) else {
        panic!(rt; "its CMD_SYNC is complete");
    };
    let Ok((mut sender, leaving)) = configured.send(&ring, sender, 1) else {
        panic!(rt; "the batch is refused");
    };
    let (count, removed) = (2, 0);
    assert_eq!(rt;
        engine.step_run(&ring, 64),
        RunAnswer::Applied { count, removed }
    );
    match leaving.look(&ring, &mut sender) {
        Ok(detached) => Ok(detached),
        Err(_) => panic!(rt; "its CMD_SYNC is complete"),
    }
}
