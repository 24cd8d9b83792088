//! Publishing an open reservation, by a sender whose seat the keeper lends.
ghost use Rattle.std.specs.Prelude.{◌≡◌};
ghost use Rattle.simulator.specs.queue.{published, IsBack, IsIdleSeat, IsOpenSeat, MayLend};

use batch::BorrowedBatch;
use ring::{Bare, BatchKind, Closing, IdleReservation, IdleSender, Keeper, Ring};

/// Writes and publishes a sender's reservation, of which nothing is written.
pub(super) fn hand_over(
    keeper: &mut Keeper,
    ring: &Ring,
    idle: IdleReservation,
    batch: BorrowedBatch<'_>,
) -> IdleSender
    requires lends { MayLend ring.now keeper.old idle.tally.sender }
    requires open { IsOpenSeat keeper.old idle.tally.sender batch idle }
    ensures run { keeper.new.run
        ≡ published keeper.old.ring.made_with.geometry idle.tally.sender keeper.old.run }
    ensures back { IsBack idle.tally.sender keeper.old keeper.new }
    ensures idle { IsIdleSeat keeper.new idle.tally.sender result }
{
    if idle.closes() {
        publish_as::<Closing>(keeper, ring, idle, batch)
    } else {
        publish_as::<Bare>(keeper, ring, idle, batch)
    }
}

/// The same for a reservation of this kind.
fn publish_as<K: BatchKind>(
    keeper: &mut Keeper,
    ring: &Ring,
    idle: IdleReservation,
    batch: BorrowedBatch<'_>,
) -> IdleSender
    requires lends { MayLend ring.now keeper.old idle.tally.sender }
    requires closes { idle.closes ≡ K.closes }
    requires open { IsOpenSeat keeper.old idle.tally.sender batch idle }
    ensures run { keeper.new.run
        ≡ published keeper.old.ring.made_with.geometry idle.tally.sender keeper.old.run }
    ensures back { IsBack idle.tally.sender keeper.old keeper.new }
    ensures idle { IsIdleSeat keeper.new idle.tally.sender result }
{
    let reservation = keeper.lend_reservation::<K>(ring, idle, batch);
    let sender = reservation.hand_over(ring);
    let idle = keeper.take_sender(ring, sender);
    keeper.run_stands();
    idle
}
