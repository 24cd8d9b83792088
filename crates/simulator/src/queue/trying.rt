//! Trying to reserve, by a sender whose seat the keeper lends.
ghost use Rattle.ring.specs.Keepers.{IsIdleSender};
ghost use Rattle.simulator.specs.queue.{HasTried, IsBack, MayLend};

use batch::BorrowedBatch;
use qindex::indexes_tell_the_queue;
use ring::{Bare, BatchKind, Cause, Closing, IdleReservation, IdleSender, Keeper, Refused, Ring};
use ringcore::world_law;

/// Tries once to reserve a batch, closed with a CMD_SYNC or not.
pub(super) fn try_once(
    keeper: &mut Keeper,
    ring: &Ring,
    idle: IdleSender,
    batch: BorrowedBatch<'_>,
    closes: bool,
) -> Result<IdleReservation, (IdleSender, Cause)>
    requires lends { MayLend ring.now keeper.old idle.sender }
    requires idle { IsIdleSender keeper.old idle }
    ensures tried { HasTried keeper.old keeper.new idle.sender batch.entry closes result }
    ensures back { IsBack idle.sender keeper.old keeper.new }
{
    if closes {
        try_as::<Closing>(keeper, ring, idle, batch)
    } else {
        try_as::<Bare>(keeper, ring, idle, batch)
    }
}

/// The same for a batch of this kind.
fn try_as<K: BatchKind>(
    keeper: &mut Keeper,
    ring: &Ring,
    idle: IdleSender,
    batch: BorrowedBatch<'_>,
) -> Result<IdleReservation, (IdleSender, Cause)>
    requires lends { MayLend ring.now keeper.old idle.sender }
    requires idle { IsIdleSender keeper.old idle }
    ensures tried { HasTried keeper.old keeper.new idle.sender batch.entry K.closes result }
    ensures back { IsBack idle.sender keeper.old keeper.new }
{
    world_law();
    indexes_tell_the_queue();
    let sender = keeper.lend_sender(ring, idle);
    match sender.reserve_as::<K>(ring, batch) {
        Ok(reservation) => {
            let idle = keeper.take_reservation(ring, reservation);
            keeper.run_stands();
            Ok(idle)
        }
        Err(refused) => {
            let Refused { sender, cause } = refused;
            let idle = keeper.take_sender(ring, sender);
            keeper.run_stands();
            Err((idle, cause))
        }
    }
}
