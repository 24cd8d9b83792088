//! A witness that a sender was told truly, of entries and of transactions.
ghost use Rattle.std.specs.Prelude.{◌≡◌, []};
ghost use Rattle.ringcore.specs.declared.world.event.Who.TheVariants.{Consumer as ConsumerOf};
ghost use Rattle.ring.specs.table.Rule.{WentOn};
ghost use Rattle.transactions.specs.Together.{AreTracked};
ghost use Rattle.transactions.specs.Told.{WasToldAllFully, HasConsumerSteps};
ghost use Rattle.transactions.specs.Told.{HasSenderSteps, SenderWentOn};

use crate::tracked::TrackedUnit;
use ring::{Consumer, Ring, Sender};
use ringcore::laws;

/// A witness, while the ring runs, that a sender was told truly: whatever number it was told, no
/// entry is held, and no transaction is outstanding that uses one or tables, which is older than a
/// command that was reserved before that CMD_SYNC and concerns it. From then on consumer and sender
/// know the run as it is at this moment, which has the steps of both. Otherwise both stay as they
/// are.
pub fn told(
    consumer: &mut Consumer<TrackedUnit>,
    tracked: &TrackedUnit,
    ring: &Ring,
    sender: &mut Sender,
)
    requires ring { consumer.old.ring ≡ ring.now }
    requires sender { sender.old.ring ≡ ring.now }
    requires together { AreTracked consumer.old tracked.now }
    ensures told { WasToldAllFully consumer.new.history tracked.now sender.old }
    ensures together { AreTracked consumer.new tracked.now }
    ensures consumer { record consumer.new { history = [] } ≡ record consumer.old { history = [] } }
    ensures sender { record sender.new { history = [] } ≡ record sender.old { history = [] } }
    ensures one { sender.new.history ≡ consumer.new.history }
    ensures of_consumer { HasConsumerSteps consumer.old consumer.new.history }
    ensures of_sender { HasSenderSteps sender.old consumer.new.history }
    ensures known_to_consumer { WentOn ConsumerOf consumer.old.history consumer.new.history }
    ensures known_to_sender { SenderWentOn sender.old consumer.new.history }
{
    laws::consumer_trail();
    consumer.meet(ring, sender);
    let _ = tracked.unit();
}
