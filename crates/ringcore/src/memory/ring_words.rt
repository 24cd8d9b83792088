//! The words of a ring in a plain vector, with one owner: one operation for each kind of atomic step.
ghost use Rattle.std.specs.Prelude.{◌≡◌, ◌≢◌, ◌+◌, ◌≤◌, ◌<◌, ◌^◌, ℕ, length, true, false, replicate, IfOk, OnOk, OnErr, IfErr, bit_or};
ghost use Rattle.std.specs.Option.{SomeIff};
ghost use Rattle.qindex.specs.Positions.{size, index_of};
ghost use Rattle.qindex.specs.ControlWord.{packed, control_in, IsControlWord, advance_mask as mask_to_advance, close_mask as mask_to_close};
ghost use Rattle.ringcore.specs.Limits.{most_senders, flags_a_word};
ghost use Rattle.ringcore.specs.memory.Layout.{control_word, flag_word, data_word, cell, words_of};
ghost use Rattle.ringcore.specs.world.Allowed.{ShareAWord};
ghost use Rattle.ringcore.specs.memory.Flags.{IsReadyRun};
ghost use Rattle.ringcore.specs.memory.WordStores.{IsFlipped, word_at, with_word, with_turned};

use crate::memory::flags::{flip_mask, ready_run};
use crate::memory::layout::{cell, control_word, data_word, flag_word, words};
use crate::world::Half;
use qindex::{Control, Geometry, Index, advance_mask, close_mask};
use std::alloc::{AllocError, Global};
use std::marker::Model;

/// The words of a ring: the control word, the flag words, the data words and a completion cell for each
/// sender (own).
#[derive(Drop)]
pub struct RingWords {
    geometry: Geometry,
    senders: u32,
    words: Vec<u64>,
}

impl Model for RingWords {
    ghost use Rattle.ringcore.specs.memory.WordStores.{WordsValue, AreWords};

    ghost Value = { WordsValue };

    ghost view = { λ w. record { geometry = w.geometry; senders = w.senders; words = w.words.items } };

    ghost invariant = { λ w. AreWords (record { geometry = w.geometry; senders = w.senders; words = w.words.items }) };
}

impl RingWords {
    /// The words of a new ring with this many senders, at most 256: all 0.
    ///
    /// Errors: memory runs out.
    pub fn new(alloc: Global, geometry: Geometry, senders: u32) -> Result<RingWords, AllocError>
        requires { senders ≤ most_senders }
        ensures { IfOk result (λ w. w ≡ record { geometry = geometry; senders = senders; words = replicate (words_of geometry senders) 0 }) }
    {
        Ok(RingWords {
            geometry,
            senders,
            words: vec![in alloc; 0; words(geometry, senders)]?,
        })
    }

    /// Returns the geometry of the ring.
    pub fn geometry(&self) -> Geometry
        ensures { result ≡ self.now.geometry }
    {
        self.geometry
    }

    /// Returns what the control word says, if it is one that a ring may have.
    pub fn control(&self) -> Option<Control>
        ensures { SomeIff result (IsControlWord self.now.geometry (word_at self.now control_word)) (control_in self.now.geometry (word_at self.now control_word)) }
    {
        Control::unpack(self.geometry, self.words[control_word()])
    }

    /// Stores `after` if the control word says `before`. Returns whether it did.
    pub fn exchange(&mut self, before: &Control, after: &Control) -> bool
        ensures won { word_at self.old control_word ≡ packed before.now → (result ≡ true) × (self.new ≡ with_word self.old control_word (packed after.now)) }
        ensures lost { word_at self.old control_word ≢ packed before.now → (result ≡ false) × (self.new ≡ self.old) }
    {
        let is_same = self.words[control_word()] == before.pack();
        if is_same {
            self.words[control_word()] = after.pack();
        }
        is_same
    }

    /// Stores a half of the command at an index.
    pub fn write(&mut self, index: Index, half: Half, word: u64)
        requires { index.geometry ≡ self.old.geometry }
        ensures value { self.new ≡ with_word self.old (data_word self.old.geometry index.number half) word }
        ensures position { (geometry position : ℕ) → index ≡ index_of geometry position → self.new ≡ with_word self.old (data_word geometry position half) word }
    {
        self.words[data_word(index, half)] = word;
    }

    /// Flips the flags of `count` indexes from this one on, which share a flag word.
    pub fn flip(&mut self, first: Index, count: u32)
        requires geometry { first.geometry ≡ self.old.geometry }
        requires some { 1 ≤ count }
        requires within { count ≤ size first.geometry }
        requires word { ShareAWord flags_a_word first.geometry first.number count }
        ensures value { IsFlipped self.old self.new first.number count }
        ensures position { (geometry position : ℕ) → first ≡ index_of geometry position → IsFlipped self.old self.new position count }
    {
        self.words[flag_word(first)] ^= flip_mask(first, count);
    }

    /// Returns how many indexes in a row, from the head's on, are flipped according to the head's flag word:
    /// at most `limit`, and as far as their flags are in that word.
    pub fn ready(&self, head: Index, limit: u32) -> u32
        requires { head.geometry ≡ self.now.geometry }
        ensures value { IsReadyRun self.now.geometry (word_at self.now (flag_word self.now.geometry head.number)) head.number limit result }
        ensures position { (geometry position : ℕ) → head ≡ index_of geometry position → IsReadyRun geometry (word_at self.now (flag_word geometry position)) position limit result }
    {
        ready_run(self.words[flag_word(head)], head, limit)
    }

    /// Returns a half of the command at an index.
    pub fn read(&self, index: Index, half: Half) -> u64
        requires { index.geometry ≡ self.now.geometry }
        ensures value { result ≡ word_at self.now (data_word self.now.geometry index.number half) }
        ensures position { (geometry position : ℕ) → index ≡ index_of geometry position → result ≡ word_at self.now (data_word geometry position half) }
    {
        self.words[data_word(index, half)]
    }

    /// Moves cons in the control word from one index to the other.
    pub fn advance(&mut self, from: Index, to: Index)
        ensures { self.new ≡ with_turned self.old control_word (mask_to_advance from to) }
    {
        self.words[control_word()] ^= advance_mask(from, to);
    }

    /// Sets the closed bit of the control word.
    pub fn close(&mut self)
        ensures { self.new ≡ with_word self.old control_word (bit_or (word_at self.old control_word) mask_to_close) }
    {
        self.words[control_word()] |= close_mask();
    }

    /// Stores a number into a sender's completion cell.
    pub fn acknowledge(&mut self, sender: u32, number: u32)
        requires { sender < self.old.senders }
        ensures { self.new ≡ with_word self.old (cell self.old.geometry sender) number }
    {
        self.words[cell(self.geometry, sender)] = u64::from(number);
    }

    /// Returns what a sender's completion cell holds.
    pub fn acknowledged(&self, sender: u32) -> u64
        requires { sender < self.now.senders }
        ensures { result ≡ word_at self.now (cell self.now.geometry sender) }
    {
        self.words[cell(self.geometry, sender)]
    }
}
