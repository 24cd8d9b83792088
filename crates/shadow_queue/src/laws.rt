//! Laws of the definitions. Each is the contract of a function that does nothing.
ghost use Rattle.shadow_queue.specs.Messages.{MessagesOfBeforeTellNothing};

/// No MSI of before a restart is believed behind it, however late it comes: what it says lies behind what is known to be
/// consumed, unless that is 2^32 commands ago.
#[tactic(auto, using(crate::proofs::Counting::messages_of_before))]
pub fn messages_of_before_tell_nothing()
    ensures { MessagesOfBeforeTellNothing }
{}
