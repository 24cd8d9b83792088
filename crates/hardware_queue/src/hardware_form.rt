//! What the hardware gets for the commands of a ring.
ghost use Rattle.std.specs.Prelude.{◌≡◌};
ghost use Rattle.hardware_queue.specs.Flights.{passed, hardware_form as form_of, IsPassing};

use cmdcodec::{Raw, RawList, first_ill};
use ring::{DeferringConsumer, Device};

/// A CMD_SYNC that asks for no signal.
const PLAIN_SYNC: Raw = Raw { lo: 0x46, hi: 0 };

/// Returns what the hardware gets for a legal command.
pub fn hardware_form(raw: Raw) -> Raw
    ensures { result ≡ form_of raw }
{
    if raw.is_sync() { PLAIN_SYNC } else { raw }
}

/// Returns what the hardware gets for a command, or `None` for an illegal one.
fn pass(raw: Raw) -> Option<Raw>
    ensures { result ≡ passed raw }
{
    if first_ill(raw).is_some() {
        return None;
    }
    Some(hardware_form(raw))
}

/// Returns what the hardware gets for the commands that were read, up to the first illegal one.
pub fn pass_run<D: Device>(run: &DeferringConsumer<D>) -> RawList
    ensures { IsPassing run.now.raws result.items }
{
    let mut out = RawList::new();
    for place in 0..run.len() {
        let Some(command) = pass(run.get(place).unwrap()) else {
            return out;
        };
        out.push(command);
    }
    out
}
