//! Laws of the definitions. Each is the contract of a function that does nothing.
ghost use Rattle.guest_forwarding.specs.Laws.{CarriedOutIsApplied, NoOlderEntryIsHeld};

/// What is carried out was applied: whatever the guest's command covers, as it is on the host, a command covers that
/// was taken and applied, of a batch that the sender reserved after the guest's command was consumed.
#[tactic(auto, using(crate::proofs::LawLemmas::carried_out_is_applied))]
pub fn carried_out_is_applied()
    ensures { CarriedOutIsApplied }
{}

/// Once a guest's command is carried out, the caches of the engine that takes the host's commands hold no entry of
/// what it covers, as that is on the host, but those that were filled after such a command was taken. That they are
/// settled, in a run that continues the sender's, is what `Engine::told` says.
pub fn no_older_entry_is_held()
    ensures { NoOlderEntryIsHeld }
{}
