//! Flags of positions as bits of their flag word (own): the mask that flips a run of them, and how many in a
//! row are flipped. Rings of at most 64 slots have one flag word, in which a run may continue past the last
//! place.
ghost use Rattle.std.specs.Prelude.{◌≡◌, ◌≢◌, ◌↔◌, ℕ, ◌+◌, ◌-◌, ◌<◌, ◌≤◌, ◌^◌, ◌==◌};
ghost use Rattle.std.specs.Int.{bit_at};
ghost use Rattle.qindex.specs.Positions.{size, index_of};
ghost use Rattle.qindex.specs.ControlWord.{bit as bit_of};
ghost use Rattle.ringcore.specs.Limits.{flags_a_word};
ghost use Rattle.ringcore.specs.machine.StepAnswers.{new_flags};
ghost use Rattle.ringcore.specs.world.Allowed.{ShareAWord};
ghost use Rattle.ringcore.specs.memory.Flags.{polarity, shared_word, IsFlipMask, IsReadyRun, ready_in};

use crate::limits::FLAGS;
use qindex::{Geometry, Index, indexes_tell_place_and_wrap_bit};

/// Returns the bit by which the flag of an index says that it is flipped: set on even laps (own).
pub fn polarity(index: Index) -> bool
    ensures value { result ≡ (polarity index.geometry index.number == 1) }
    ensures position { (geometry position : ℕ) → index ≡ index_of geometry position → result ≡ (polarity geometry position == 1) }
{
    !index.wrap()
}

/// Returns how many indexes from this one on have their flags in its flag word, at most the ring's size.
pub fn shared_word(first: Index) -> u32
    ensures share { ShareAWord flags_a_word first.geometry first.number result }
    ensures share_at_position { (geometry position : ℕ) → first ≡ index_of geometry position → ShareAWord flags_a_word geometry position result }
    ensures value { result ≡ shared_word first.geometry first.number }
    ensures position { (geometry position : ℕ) → first ≡ index_of geometry position → result ≡ shared_word geometry position }
    ensures some { 1 ≤ result }
    ensures most { result ≤ flags_a_word }
    ensures within { result ≤ size first.geometry }
{
    indexes_tell_place_and_wrap_bit();
    let size = first.geometry().size();
    if size <= FLAGS {
        size
    } else {
        FLAGS - first.place() % FLAGS
    }
}

/// Returns the mask that flips the flags of `count` indexes from this one on, 1 to 64 that share a flag word.
pub fn flip_mask(first: Index, count: u32) -> u64
    requires some { 1 ≤ count }
    requires within { count ≤ size first.geometry }
    requires word { ShareAWord flags_a_word first.geometry first.number count }
    ensures value { IsFlipMask first.geometry first.number count result }
    ensures position { (geometry position : ℕ) → first ≡ index_of geometry position → IsFlipMask geometry position count result }
{
    indexes_tell_place_and_wrap_bit();
    let place = first.place();
    let bit = place % FLAGS;
    let to_end = first.geometry().size() - place;
    if count <= to_end {
        stretch(bit, count)
    } else {
        stretch(bit, to_end) | stretch(0, count - to_end)
    }
}

/// Returns the new flags of `count` positions from this one on, 1 to 64, with that of the first in bit 0.
pub fn new_flags(geometry: Geometry, position: u64, count: u32) -> u64
    requires some { 1 ≤ count }
    requires most { count ≤ 64 }
    requires within { position + count < 2 ^ 64 }
    ensures { result ≡ new_flags geometry position count }
{
    let mut flags = 0;
    for offset in 0..count {
        flags += new_flag(geometry, position + u64::from(offset)) << offset;
    }
    flags
}

/// The new flag of a position.
fn new_flag(geometry: Geometry, position: u64) -> u64
    ensures { result ≡ polarity geometry position }
{
    1 - position / u64::from(geometry.size()) % 2
}

/// Returns how many indexes in a row, from the head's on, are flipped according to its flag word: at most
/// `limit`, and as far as their flags are in that word.
pub fn ready_run(word: u64, head: Index, limit: u32) -> u32
    ensures value { IsReadyRun head.geometry word head.number limit result }
    ensures position { (geometry position : ℕ) → head ≡ index_of geometry position → IsReadyRun geometry word position limit result }
    ensures found { (geometry position : ℕ) → head ≡ index_of geometry position → result ≡ ready_in geometry word position limit }
    ensures within { result ≤ size head.geometry }
{
    indexes_tell_place_and_wrap_bit();
    let size = head.geometry().size();
    let place = head.place();
    let to_end = size - place;
    let polarity = polarity(head);
    let here = equal_bits(word, place % FLAGS, polarity)
        .min(to_end)
        .min(limit);
    if size <= FLAGS && here == to_end {
        // The same flag word continues with the next lap.
        here + equal_bits(word, 0, !polarity).min(limit - here)
    } else {
        here
    }
}

/// The mask of `count` bits from `first` on.
fn stretch(first: u32, count: u32) -> u64
    requires some { 1 ≤ count }
    requires within { first + count ≤ flags_a_word }
    ensures { (bit : ℕ) → (bit_at result bit ≡ 1) ↔ ((first ≤ bit) × (bit < first + count)) }
{
    u64::MAX >> (FLAGS - count) << first
}

/// Returns how many bits of the word in a row, from `first` on, equal `polarity`.
fn equal_bits(word: u64, first: u32, polarity: bool) -> u32
    requires { first < flags_a_word }
    ensures within { first + result ≤ flags_a_word }
    ensures equal { (bit : ℕ) → first ≤ bit → bit < first + result → bit_at word bit ≡ bit_of polarity }
    ensures stop { first + result < flags_a_word → bit_at word (first + result) ≢ bit_of polarity }
{
    let same = if polarity { word } else { !word };
    (same >> first).trailing_ones()
}
