//! The answers to the lines of the caches.
ghost use Rattle.std.specs.Prelude.{◌≡◌, ◌++◌, OnOk, string_bytes};
ghost use Rattle.replay.specs.texts.CacheLines.{filled_text, evicted_text, found_text};

use super::entries::say_value;
use caches::Entry;
use std::alloc::AllocError;

/// Appends the answer to a fill, given the entry that the tag had before.
pub(crate) fn say_filled(was: Option<Entry>, reply: &mut String) -> Result<(), AllocError>
    ensures { OnOk result (string_bytes reply.new ≡ string_bytes reply.old ++ filled_text was) }
{
    match was {
        None => reply.push_str("filled\n"),
        Some(was) => say_value("replaced", &was, reply),
    }
}

/// Appends the answer to an eviction, given the entry that was held.
pub(crate) fn say_evicted(was: Option<Entry>, reply: &mut String) -> Result<(), AllocError>
    ensures { OnOk result (string_bytes reply.new ≡ string_bytes reply.old ++ evicted_text was) }
{
    match was {
        None => reply.push_str("absent\n"),
        Some(was) => say_value("evicted", &was, reply),
    }
}

/// Appends the answer to a lookup, given the entry that is held.
pub(crate) fn say_found(found: Option<Entry>, reply: &mut String) -> Result<(), AllocError>
    ensures { OnOk result (string_bytes reply.new ≡ string_bytes reply.old ++ found_text found) }
{
    match found {
        None => reply.push_str("absent\n"),
        Some(entry) => say_value("found", &entry, reply),
    }
}
