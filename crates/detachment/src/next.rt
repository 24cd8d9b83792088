//! What is next for a stream whose configuration's commands are complete.
use crate::configured::Configured;
use crate::detached::Detached;

/// What is next for a stream whose configuration's commands are complete (own).
#[derive(Drop)]
pub enum Next {
    /// The command for its endpoint: SMMU and endpoint have ATS.
    Endpoint(Configured),
    /// Nothing: the SMMU or the endpoint has no ATS, so no CMD_ATC_INV is to be sent.
    Nothing(Detached),
}
