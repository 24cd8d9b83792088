//! Kinds of script whose lines make a ring before anything else.
ghost use Rattle.std.specs.Prelude.{◌≡◌, IfOk, string_bytes};
ghost use Rattle.script.specs.Kinds.{Kind};
ghost use Rattle.script.specs.Standing.{Acts, Begins};
ghost use Rattle.script.specs.Words.{words_of};

use crate::first::First;
use std::alloc::{AllocError, Global};

/// A kind of script: what its lines ask for, and what it keeps between them once a ring is made.
pub trait ScriptKind {
    /// What a line asks for.
    type Request: Drop;

    /// What is kept once the ring is made.
    type Kept: Drop;

    /// The state, in the definition, once the ring is made.
    ghost State: { Type 0 };

    /// Whether what is kept stands for a state.
    ghost stands: { Self.Kept → State → Type 0 };

    /// The definition of what the lines do.
    ghost kind: { Kind State Self.Request };

    /// Returns the request of a comment or a line without words.
    fn nothing() -> Self::Request
        ensures { result ≡ kind.nothing };

    /// Parses a line by its first word and the text after it. Returns `Ok(None)` for a bad line.
    fn parse_named(
        alloc: Global,
        name: &[u8],
        rest: &[u8],
    ) -> Result<Option<Self::Request>, AllocError>
        ensures { IfOk result (λ request. request ≡ kind.named name.now (words_of rest.now)) };

    /// Serves a request before the ring is made.
    fn first(alloc: Global, request: &Self::Request) -> Result<First<Self::Kept>, AllocError>
        ensures { IfOk result (λ first.
            Begins stands first (λ number. kind.first_served number request.now)) };

    /// Serves a request once the ring is made, and returns whether the run goes on.
    fn serve_made(
        kept: &mut Self::Kept,
        number: u64,
        request: &Self::Request,
        reply: &mut String,
    ) -> Result<bool, AllocError>
        ensures { IfOk result (λ goes_on.
            Acts stands (λ wanting.
            kind.served number wanting request.now) kept.old kept.new (string_bytes reply.old)
            (string_bytes reply.new) goes_on) };

    /// Shows that the kind's `holds` holds of each state that `kept` stands for. It does nothing.
    fn holds(kept: &Self::Kept)
        ensures { (state : State) → stands kept.now state → kind.holds state };
}
