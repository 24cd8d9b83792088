//! What is answered of batches, worked out by hand.
ghost use Rattle.std.specs.Prelude.{◌≡◌};

use batch_outcomes::{BatchOutcome, Outcomes};
use std::alloc::AllocError;

#[test]
fn a_command_of_the_second_batch_is_lost(rt: HostRuntime) -> Result<(), AllocError> {
    let mut outcomes = Outcomes::new(rt.alloc(), 1)?;
    outcomes.settle(true);
    outcomes.close(0, 1);
    outcomes.settle(false);
    outcomes.settle(true);
    outcomes.close(0, 2);
    assert_eq!(rt; outcomes.outcome(0, 1), BatchOutcome::Complete);
    assert_eq!(rt; outcomes.outcome(0, 2), BatchOutcome::Lost(1));
    assert_eq!(rt; outcomes.outcome(0, 3), BatchOutcome::NotYet);
    Ok(())
}

#[test]
fn only_the_last_loss_of_a_sender_is_kept(rt: HostRuntime) -> Result<(), AllocError> {
    let mut outcomes = Outcomes::new(rt.alloc(), 2)?;
    outcomes.settle(false);
    outcomes.close(0, 1);
    outcomes.settle(false);
    outcomes.settle(false);
    outcomes.close(1, 1);
    outcomes.settle(false);
    outcomes.close(0, 2);
    assert_eq!(rt; outcomes.outcome(0, 1), BatchOutcome::Unknown);
    assert_eq!(rt; outcomes.outcome(0, 2), BatchOutcome::Lost(1));
    assert_eq!(rt; outcomes.outcome(1, 1), BatchOutcome::Lost(2));
    Ok(())
}
