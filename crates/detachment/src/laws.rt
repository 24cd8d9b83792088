//! Laws of the definitions. Each is the contract of a function that does nothing.
ghost use Rattle.detachment.specs.Laws.{ConfigurationIsCovered, EndpointIsCovered, BothDetach, NothingIsGoingOn, GoingOnAddsUp};

/// The first commands cover exactly the configuration of the stream, the others exactly what its endpoint
/// caches, and together they are the commands of `Batch::detach`.
pub fn commands_cover_the_stream()
    ensures configuration { ConfigurationIsCovered }
    ensures endpoint { EndpointIsCovered }
    ensures both { BothDetach }
{}

/// Whatever a sender does between two steps of a stream, it may take the next: it has gone on since.
#[tactic(auto, using(crate::proofs::GoingOn::not_at_all, crate::proofs::GoingOn::adds_up))]
pub fn a_sender_goes_on()
    ensures nothing { NothingIsGoingOn }
    ensures sum { GoingOnAddsUp }
{}
