//! Trying to reserve a batch and publishing it, by a sender whose seat the keeper lends once.
ghost use Rattle.ring.specs.Keepers.{IsIdleSender};
ghost use Rattle.simulator.specs.queue.{HasSent, MayLend};

use batch::BorrowedBatch;
use qindex::indexes_tell_the_queue;
use ring::{Bare, BatchKind, Cause, Closing, IdleSender, Keeper, Refused, Ring};
use ringcore::world_law;

/// Tries once to reserve a batch and publishes it if that worked. Returns what is left of the sender, and the batch's
/// number, if it has one.
pub(super) fn send_once(
    keeper: &mut Keeper,
    ring: &Ring,
    idle: IdleSender,
    batch: BorrowedBatch<'_>,
    closes: bool,
) -> (IdleSender, Result<Option<u32>, Cause>)
    requires lends { MayLend ring.now keeper.old idle.sender }
    requires idle { IsIdleSender keeper.old idle }
    ensures { HasSent keeper.old keeper.new idle.sender batch.entry closes result.0 result.1 }
{
    if closes {
        send_as::<Closing>(keeper, ring, idle, batch)
    } else {
        send_as::<Bare>(keeper, ring, idle, batch)
    }
}

/// The same for a batch of this kind.
fn send_as<K: BatchKind>(
    keeper: &mut Keeper,
    ring: &Ring,
    idle: IdleSender,
    batch: BorrowedBatch<'_>,
) -> (IdleSender, Result<Option<u32>, Cause>)
    requires lends { MayLend ring.now keeper.old idle.sender }
    requires idle { IsIdleSender keeper.old idle }
    ensures { HasSent keeper.old keeper.new idle.sender batch.entry K.closes result.0 result.1 }
{
    world_law();
    indexes_tell_the_queue();
    let sender = keeper.lend_sender(ring, idle);
    match sender.reserve_as::<K>(ring, batch) {
        Ok(reservation) => {
            let number = reservation.number();
            let sender = reservation.hand_over(ring);
            let idle = keeper.take_sender(ring, sender);
            keeper.run_stands();
            (idle, Ok(number))
        }
        Err(refused) => {
            let Refused { sender, cause } = refused;
            let idle = keeper.take_sender(ring, sender);
            keeper.run_stands();
            (idle, Err(cause))
        }
    }
}
