//! The keeper, which has all seats of a ring and so knows the whole run. It lends one seat at a time.
ghost use Rattle.std.specs.Prelude.{◌≡◌, ◌<◌, Some, None};
ghost use Rattle.ring.specs.Runs.{Sender as SenderOf, trail_of, IsOne};
ghost use Rattle.ring.specs.table.{Grew, RunStands};
ghost use Rattle.ring.specs.Keepers.{own_port, has_lent, has_back, Adds, IsNews, KeepsOthers};

mod asking;
mod consumer;
mod making;
mod reservation;
mod sender;

use crate::ring::Ring;
use crate::table::{Gathers, HasWho, Lends, Meets, Participants, Port};
use atomic_table::Seat;
pub use consumer::IdleConsumer;
pub use reservation::IdleReservation;
use ringcore::control_word;
pub use sender::IdleSender;
use std::marker::{Brand, Model};

/// Has the seats of all of a ring's senders and of its consumer. Each gets its seat for a call and gives it
/// back; then the run that the keeper knows is longer by exactly the steps of that call. It has no bytes.
#[derive(Drop)]
pub struct Keeper {
    seat: Seat<(), Participants>,
}

impl Model for Keeper {
    ghost use Rattle.ring.specs.Keepers.{KeeperValue, keeper_of, IsKeeper};

    ghost Value = { KeeperValue };

    ghost view = { λ k. keeper_of k.seat.table_id k.seat.me.0 };

    ghost invariant = { λ k. IsKeeper k.seat.me };
}

impl Keeper {
    /// A witness that its run is a run of the ring. It does nothing.
    pub fn run_stands(&self)
        ensures { RunStands self.now.ring.made_with self.now.run }
    {
        let _ = &self.seat;
    }

    /// Lends the seat of one of the ring's senders.
    fn lend_to_sender(&mut self, ring: &Ring, sender: u32) -> Port
        requires ring { self.old.ring ≡ ring.now }
        requires whole { self.old.lent ≡ None }
        requires known { sender < self.old.ring.made_with.senders }
        ensures port { result ≡ own_port (SenderOf sender) self.old }
        ensures keeper { self.new ≡ has_lent (SenderOf sender) self.old }
    {
        self.lend_sender_for::<Brand>(ring, sender)
    }

    fn lend_sender_for<W: HasWho>(&mut self, ring: &Ring, sender: u32) -> Port
        requires ring { self.old.ring ≡ ring.now }
        requires whole { self.old.lent ≡ None }
        requires known { sender < self.old.ring.made_with.senders }
        requires who { W.who ≡ SenderOf sender }
        ensures port { result ≡ own_port (SenderOf sender) self.old }
        ensures keeper { self.new ≡ has_lent (SenderOf sender) self.old }
    {
        self.lend::<W>(ring)
    }

    fn lend<W: HasWho>(&mut self, ring: &Ring) -> Port
        requires ring { self.old.ring ≡ ring.now }
        requires whole { self.old.lent ≡ None }
        requires known { IsOne self.old.ring.made_with.senders W.who }
        ensures port { result ≡ own_port W.who self.old }
        ensures keeper { self.new ≡ has_lent W.who self.old }
    {
        let seat = ring.table.shared.split_seat::<Lends<W>>(&mut self.seat);
        Port { seat }
    }

    /// Takes back the seat that was lent. A load tells the run as it is.
    fn take_back(&mut self, ring: &Ring, port: Port)
        requires ring { self.old.ring ≡ ring.now }
        requires own { port.ring ≡ ring.now }
        requires lent { self.old.lent ≡ Some port.who }
        ensures keeper { self.new ≡ has_back port.who port.trail self.old }
        ensures adds { Adds port.who port.trail self.old.run self.new.run }
        ensures grew { Grew port.who (trail_of port.who self.old.run) port.trail self.old.run
            self.new.run }
        ensures news { IsNews port.who port.trail port.history self.old.run self.new.run }
        ensures others { KeepsOthers port.who self.old self.new }
    {
        let Port { seat } = port;
        let words = &ring.table.shared;
        words.join_seat::<Gathers>(&mut self.seat, seat);
        words.load::<Meets>(&mut self.seat, control_word());
    }
}
