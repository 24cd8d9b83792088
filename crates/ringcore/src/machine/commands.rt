//! The commands of a batch.
ghost use Rattle.std.specs.Prelude.{◌≡◌, ◌<◌, ◌≤◌, length};
ghost use Rattle.ringcore.specs.Limits.{most_senders};
ghost use Rattle.ringcore.specs.world.World.{commands};

use cmdcodec::{Raw, RawList, closing_sync, encode};

/// Returns the commands of a sender's batch: a body of at most 63, followed by the closing sync with this
/// number, if there is one.
pub fn batch_commands(sender: u32, body: &[Raw], number: Option<u32>) -> RawList
    requires sender { sender < most_senders }
    requires body { length body.now ≤ 63 }
    ensures { result.items ≡ commands sender number body.now }
{
    let mut commands = RawList::new();
    fill_with_batch(&mut commands, sender, body, number);
    commands
}

/// Fills a list with exactly the commands of a sender's batch.
pub(crate) fn fill_with_batch(list: &mut RawList, sender: u32, body: &[Raw], number: Option<u32>)
    requires sender { sender < most_senders }
    requires body { length body.now ≤ 63 }
    ensures { list.new.items ≡ commands sender number body.now }
{
    list.clear();
    list.try_extend_from_slice(body).unwrap();
    if let Some(number) = number {
        list.push(encode(&closing_sync(sender, number)));
    }
}
