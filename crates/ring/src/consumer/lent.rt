//! The device lent last.
ghost use Rattle.std.specs.Prelude.{◌≡◌, None, Some};

use crate::device::Device;
use std::marker::Model;
use std::snapshot::Snapshot;

/// The device that was lent last, as it was then. Only clauses read it, and it has no bytes.
#[derive(Drop)]
pub struct Lent<D: Device> {
    last: Snapshot<Option<Snapshot<D>>>,
}

impl<D: Device> Model for Lent<D> {
    ghost use Rattle.std.specs.Prelude.{Option};
    ghost use Rattle.ring.specs.consumer.Lending.{shown};

    ghost Value = { Option D };

    ghost view = { λ l. shown l.last.value };
}

impl<D: Device> Lent<D> {
    /// None was lent.
    pub(crate) fn nothing() -> Lent<D>
        ensures { result ≡ None }
    {
        Lent {
            last: Snapshot::of(&None),
        }
    }

    /// This one was lent.
    pub(crate) fn of(device: &D) -> Lent<D>
        ensures { result ≡ Some device.now }
    {
        Lent {
            last: Snapshot::of(&Some(Snapshot::of(device))),
        }
    }
}
