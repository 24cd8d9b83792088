//! The answers to steps are what happens, and which events change what seats know.
ghost use Rattle.ringcore.specs.machine.Played.{StepsAreAllowed, PlayedAreRuns};
ghost use Rattle.ringcore.specs.machine.NamedSteps.{AllowedAreTaken};
ghost use Rattle.ringcore.specs.machine.SenderViews.{OthersLeaveIt, CloseLeavesIt, AskLeavesIt};
ghost use Rattle.ringcore.specs.machine.ConsumerViews.{SendersLeaveIt, ConsumersLookLeavesIt, AcknowledgementLeavesIt};
ghost use Rattle.ringcore.specs.machine.SyncTallies.{AdvancesCount, OthersDontCount};

use qindex::{control_words_say_their_control, indexes_tell_the_queue};

/// The answer to a step is what happens: a step without a fault is an allowed event, after any run. So
/// whatever list of steps is played, up to the first with a fault, what was played is a run. And for every
/// allowed event, the step that requests it has no fault and is that event.
pub fn steps_law()
    ensures allowed { StepsAreAllowed }
    ensures played { PlayedAreRuns }
    ensures taken { AllowedAreTaken }
{
    control_words_say_their_control();
    indexes_tell_the_queue();
}

/// Events of other seats, and the sender's own close and ask, leave what it knows.
pub fn sender_view()
    ensures others { OthersLeaveIt }
    ensures close { CloseLeavesIt }
    ensures ask { AskLeavesIt }
{}

/// Events of a sender, and the consumer's own look and acknowledgement, leave what it knows.
pub fn consumer_view()
    ensures senders { SendersLeaveIt }
    ensures look { ConsumersLookLeavesIt }
    ensures acknowledgement { AcknowledgementLeavesIt }
{}

/// An advance counts the closing syncs among its commands, and no other event counts any.
pub fn sync_tallies()
    ensures advance { AdvancesCount }
    ensures others { OthersDontCount }
{}
