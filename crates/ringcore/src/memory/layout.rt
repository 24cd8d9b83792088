//! Where each word of a ring is. The control word, the flag words, the data words and each completion cell
//! don't share 64 bytes with one another (own).
ghost use Rattle.std.specs.Prelude.{◌≡◌, ℕ, ◌≤◌, ◌^◌};
ghost use Rattle.qindex.specs.Positions.{index_of};
ghost use Rattle.ringcore.specs.Limits.{most_senders};
ghost use Rattle.ringcore.specs.memory.Layout.{control_word, flag_word, first_data_word, half_number, data_word, first_cell, cell, words_of};

use crate::limits::FLAGS;
use crate::world::Half;
use qindex::{Geometry, Index};

/// The number of unused words after each part, so that the next one starts 64 bytes further on or later.
const UNUSED: usize = 7;

/// The word that holds both indexes and the closed bit (own).
pub fn control_word() -> usize
    ensures { result ≡ control_word }
{
    0
}

/// The word that holds the flag of an index (own).
pub fn flag_word(index: Index) -> usize
    ensures value { result ≡ flag_word index.geometry index.number }
    ensures position { (geometry position : ℕ) → index ≡ index_of geometry position → result ≡ flag_word geometry position }
{
    control_word() + 1 + UNUSED + (index.place() / FLAGS) as usize
}

/// The word that holds a half of the command at an index (own).
pub fn data_word(index: Index, half: Half) -> usize
    ensures value { result ≡ data_word index.geometry index.number half }
    ensures position { (geometry position : ℕ) → index ≡ index_of geometry position → result ≡ data_word geometry position half }
{
    first_data_word(index.geometry()) + 2 * index.place() as usize + half_number(half)
}

/// The word that is a sender's completion cell (own). `sender` is at most 256.
pub fn cell(geometry: Geometry, sender: u32) -> usize
    requires { sender ≤ most_senders }
    ensures { result ≡ cell geometry sender }
{
    first_cell(geometry) + sender as usize * (1 + UNUSED)
}

/// Returns how many 64-bit words a ring has (own). `senders` is at most 256.
pub fn words(geometry: Geometry, senders: u32) -> usize
    requires { senders ≤ most_senders }
    ensures { result ≡ words_of geometry senders }
{
    first_cell(geometry) + senders as usize * (1 + UNUSED)
}

fn first_data_word(geometry: Geometry) -> usize
    ensures value { result ≡ first_data_word geometry }
    ensures in_range { result ≤ 2 ^ 14 }
{
    control_word() + 1 + UNUSED + ((geometry.size() + FLAGS - 1) / FLAGS) as usize + UNUSED
}

fn half_number(half: Half) -> usize
    ensures { result ≡ half_number half }
{
    match half {
        Half::Lo => 0,
        Half::Hi => 1,
    }
}

fn first_cell(geometry: Geometry) -> usize
    ensures value { result ≡ first_cell geometry }
    ensures in_range { result ≤ 2 ^ 21 }
{
    first_data_word(geometry) + 2 * geometry.size() as usize + UNUSED
}
