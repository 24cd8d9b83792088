//! What is left of the consumer while the keeper has its seat.
ghost use Rattle.std.specs.Prelude.{◌≡◌, Some, None};
ghost use Rattle.ring.specs.Runs.{Consumer as ConsumerOf, trail_of};
ghost use Rattle.ring.specs.table.{Grew};
ghost use Rattle.ring.specs.Keepers.{own_consumer, has_lent, has_back, Adds, IsNews, KeepsOthers, IsIdleConsumer};

use crate::consumer::{Commands, Consumer, ConsumerPort, Lent};
use crate::device::Device;
use crate::keeper::Keeper;
use crate::ring::Ring;
use qindex::Index;
use std::marker::{Brand, Model};

/// The consumer while the keeper has its seat: its head, how many commands it has taken, and the device lent
/// last.
#[derive(Drop)]
pub struct IdleConsumer<D: Device> {
    pub(crate) head: Index,
    pub(crate) taken: u64,
    pub(crate) commands: Commands,
    pub(crate) lent: Lent<D>,
}

impl<D: Device> Model for IdleConsumer<D> {
    ghost use Rattle.ring.specs.Keepers.{IdleConsumerValue};

    ghost Value = { IdleConsumerValue D };

    ghost view = { λ i. record { head = i.head; taken = i.taken; lent = i.lent } };
}

impl Keeper {
    /// Lends the consumer its seat, so that it is a consumer like any other. It comes back by
    /// `take_consumer`.
    pub fn lend_consumer<D: Device>(&mut self, ring: &Ring, idle: IdleConsumer<D>) -> Consumer<D>
        requires ring { self.old.ring ≡ ring.now }
        requires whole { self.old.lent ≡ None }
        requires idle { IsIdleConsumer self.old idle.head idle.taken }
        ensures consumer { result ≡ own_consumer idle.lent self.old }
        ensures keeper { self.new ≡ has_lent ConsumerOf self.old }
    {
        let IdleConsumer {
            head,
            taken,
            commands,
            lent,
        } = idle;
        let port = self.lend::<Brand>(ring);
        Consumer {
            port: ConsumerPort { port, head, taken },
            commands,
            lent,
        }
    }

    /// Takes the consumer's seat back, and knows the whole run again.
    pub fn take_consumer<D: Device>(
        &mut self,
        ring: &Ring,
        consumer: Consumer<D>,
    ) -> IdleConsumer<D>
        requires ring { self.old.ring ≡ ring.now }
        requires own { consumer.ring ≡ ring.now }
        requires lent { self.old.lent ≡ Some ConsumerOf }
        ensures keeper { self.new ≡ has_back ConsumerOf consumer.trail self.old }
        ensures adds { Adds ConsumerOf consumer.trail self.old.run self.new.run }
        ensures grew { Grew ConsumerOf (trail_of ConsumerOf self.old.run) consumer.trail
            self.old.run self.new.run }
        ensures news { IsNews ConsumerOf consumer.trail consumer.history self.old.run self.new.run }
        ensures others { KeepsOthers ConsumerOf self.old self.new }
        ensures idle { IsIdleConsumer self.new result.head result.taken }
        ensures device { result.lent ≡ consumer.lent }
    {
        let Consumer {
            port,
            commands,
            lent,
        } = consumer;
        let ConsumerPort { port, head, taken } = port;
        self.take_back(ring, port);
        IdleConsumer {
            head,
            taken,
            commands,
            lent,
        }
    }
}
