//! A driver's thread.
ghost use Rattle.std.specs.Prelude.{◌≡◌};

use crate::pages::{Pages, invalidation_of};
use batch::Batch;
use ring::{Receipt, Ring, Sender};

/// How many addresses a driver has.
pub(crate) const ADDRESSES: u32 = 4;

/// Asks until the batch is done or the model is over. Returns whether it is done.
fn wait_until_done(ring: &Ring, sender: &mut Sender, receipt: &Receipt, pages: &Pages) -> bool
    requires ring { sender.old.ring ≡ ring.now }
    requires receipt { receipt.now.sender ≡ sender.old.number }
    ensures ring { sender.new.ring ≡ sender.old.ring }
{
    for _ in 0..u64::MAX {
        if sender.is_done(ring, receipt) {
            return true;
        }
        if pages.is_over() {
            return false;
        }
    }
    false
}

/// Maps one page after another at the driver's addresses, invalidates each, and frees the page that was mapped there as
/// soon as it is told that the invalidation completed, until the model is over.
pub(crate) fn drive(ring: &Ring, sender: Sender, pages: &Pages)
    requires { sender.ring ≡ ring.now }
{
    let mut sender = sender;
    let first = sender.id().saturating_mul(ADDRESSES);
    for round in 0..u32::MAX {
        let place = first.saturating_add(round % ADDRESSES);
        let page = pages.mapped(place);
        pages.map(place, page.saturating_add(1));
        let Ok(batch) = Batch::from_raws(&[invalidation_of(place)]) else {
            return;
        };
        let Ok((again, receipt)) = sender.send(ring, &batch, u32::MAX) else {
            return;
        };
        sender = again;
        if !wait_until_done(ring, &mut sender, &receipt, pages) {
            return;
        }
        pages.free(place, page);
    }
}
