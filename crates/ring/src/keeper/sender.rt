//! What is left of a sender while the keeper has its seat.
ghost use Rattle.std.specs.Prelude.{◌≡◌, ◌<◌, [], Some, None};
ghost use Rattle.ring.specs.Runs.{Sender as SenderOf, trail_of};
ghost use Rattle.ring.specs.table.{Grew};
ghost use Rattle.ring.specs.Keepers.{KeeperValue, own_sender, has_lent, has_back, Adds, IsNews, KeepsOthers, IsIdleSender};

use crate::keeper::Keeper;
use crate::ring::Ring;
use crate::sender::{Sender, Tally};
use std::marker::Model;

/// A sender whose seat the keeper has: its number, and how many batches it has reserved.
#[derive(Clone, Copy)]
pub struct IdleSender {
    tally: Tally,
}

impl Model for IdleSender {
    ghost use Rattle.ring.specs.declared.sender.tally.Tally.{Tally};

    ghost Value = { Tally };

    ghost view = { λ i. i.tally };

    ghost inverse = { λ t. record { tally = t } };
}

impl IdleSender {
    /// The sender with this number, from 0, of a ring in which nothing has happened.
    pub fn new(number: u32) -> IdleSender
        ensures number { result.sender ≡ number }
        ensures idle { (keeper : KeeperValue) → keeper.run ≡ [] → IsIdleSender keeper result }
    {
        IdleSender {
            tally: Tally::new(number),
        }
    }

    /// Returns its number, from 0.
    pub fn id(&self) -> u32
        ensures { result ≡ self.now.sender }
    {
        self.tally.sender
    }
}

impl Keeper {
    /// Lends a sender its seat, so that it is a sender like any other. It comes back by `take_sender`, or by
    /// `take_reservation` as the reservation that it became.
    pub fn lend_sender(&mut self, ring: &Ring, idle: IdleSender) -> Sender
        requires ring { self.old.ring ≡ ring.now }
        requires whole { self.old.lent ≡ None }
        requires known { idle.sender < self.old.ring.made_with.senders }
        requires idle { IsIdleSender self.old idle }
        ensures sender { result ≡ own_sender idle.sender self.old }
        ensures keeper { self.new ≡ has_lent (SenderOf idle.sender) self.old }
    {
        let port = self.lend_to_sender(ring, idle.tally.sender);
        Sender {
            port,
            tally: idle.tally,
        }
    }

    /// Takes a sender's seat back, and knows the whole run again.
    pub fn take_sender(&mut self, ring: &Ring, sender: Sender) -> IdleSender
        requires ring { self.old.ring ≡ ring.now }
        requires own { sender.ring ≡ ring.now }
        requires lent { self.old.lent ≡ Some (SenderOf sender.number) }
        ensures keeper { self.new ≡ has_back (SenderOf sender.number) sender.trail self.old }
        ensures adds { Adds (SenderOf sender.number) sender.trail self.old.run self.new.run }
        ensures grew { Grew (SenderOf sender.number) (trail_of (SenderOf sender.number)
            self.old.run) sender.trail self.old.run self.new.run }
        ensures news { IsNews (SenderOf sender.number) sender.trail sender.history self.old.run
            self.new.run }
        ensures others { KeepsOthers (SenderOf sender.number) self.old self.new }
        ensures number { result.sender ≡ sender.number }
        ensures idle { IsIdleSender self.new result }
    {
        let Sender { port, tally } = sender;
        self.take_back(ring, port);
        IdleSender { tally }
    }
}
