//! What a handle owns.
ghost use Rattle.std.specs.Prelude.{◌≡◌, false, Some, MatchOption};
ghost use Rattle.smmuq_c.specs.Kept.{has_unit, unit_in, IsSettledObject};

use crate::seated_consumer::SeatedConsumer;
use crate::seated_engine::SeatedEngine;
use crate::seated_forwarder::SeatedForwarder;
use crate::seated_reservation::SeatedReservation;
use crate::seated_sender::SeatedSender;
use engine::Unit;
use guest_commands::Guest;
use transactions::TrackedQueueUnit;

/// The kinds of things that a handle may own.
#[derive(Drop)]
pub(crate) enum Object {
    Unit(TrackedQueueUnit),
    Sender(SeatedSender),
    /// A sender that has an open reservation.
    Reservation(SeatedReservation),
    Engine(SeatedEngine),
    Consumer(SeatedConsumer),
    Guest(Guest),
    Forwarder(SeatedForwarder),
}

fn may_cross_threads<T: Send>(_value: &T) {}

/// Shows that C may pass a handle from one thread to another. It does nothing.
pub(crate) fn objects_may_cross_threads(object: &Object) {
    may_cross_threads(object);
}

impl Object {
    /// Whether it is a unit, or an engine, which has one.
    pub(crate) fn has_unit(&self) -> bool
        ensures { result ≡ has_unit self.now }
    {
        matches!(self, Object::Unit(_) | Object::Engine(_))
    }

    /// The unit of a unit or an engine, to read it.
    pub(crate) fn unit(&self) -> Option<&Unit>
        ensures unit { MatchOption result (has_unit self.now ≡ false) (λ unit. unit_in self.now
            ≡ Some unit.now) }
        ensures settled { IsSettledObject self.now }
    {
        match self {
            Object::Unit(unit) => Some(unit.unit()),
            Object::Engine(seated) => Some(seated.unit()),
            Object::Sender(_)
            | Object::Reservation(_)
            | Object::Consumer(_)
            | Object::Guest(_)
            | Object::Forwarder(_) => None,
        }
    }
}
