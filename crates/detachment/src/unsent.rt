//! What comes back if nothing was sent.
use ring::Refused;

/// Nothing was reserved: what was to be sent on comes back, and the sender with the cause (own).
#[derive(Drop)]
pub struct Unsent<S> {
    pub step: S,
    pub refused: Refused,
}
