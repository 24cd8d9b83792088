//! A stream that is taken away from its device.
ghost use Rattle.std.specs.Prelude.{◌≡◌};
ghost use Rattle.detachment.specs.Values.{IsDetached};

use crate::detachment::Detachment;
use cmdcodec::Sid;
use ring::{Receipt, Sender};
use std::marker::Model;
use std::snapshot::Snapshot;

/// A stream that is taken away from its device: its sender was told that all its commands are complete (own).
#[derive(Drop)]
pub struct Detached {
    pub(crate) stream: Detachment,
    pub(crate) configuration: Receipt,
    /// Where the endpoint has ATS.
    pub(crate) endpoint: Option<Receipt>,
    /// The sender once it was told, for clauses: it has no bytes.
    pub(crate) told: Snapshot<Sender>,
}

impl Model for Detached {
    ghost use Rattle.detachment.specs.Values.{DetachedValue, IsDetached, detached_value};

    ghost Value = { DetachedValue };

    ghost view = { λ d. detached_value d.stream d.configuration d.endpoint d.told.value };

    ghost invariant = { λ d. IsDetached (detached_value d.stream d.configuration d.endpoint d.told.value) };
}

impl Detached {
    /// Returns the stream.
    pub fn sid(&self) -> Sid
        ensures { result ≡ self.now.stream.sid }
    {
        self.stream.sid()
    }

    /// A witness that the commands for the configuration are applied in the run that the sender knew, and, if the
    /// endpoint has ATS, that the endpoint's is too, and was reserved behind a run in which those were. It does nothing.
    pub fn order_was_kept(&self)
        ensures { IsDetached self.now }
    {
        let _ = &self.stream;
    }
}
