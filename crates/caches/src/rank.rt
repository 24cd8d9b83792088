//! Keys as numbers, by which the map orders them.
ghost use Rattle.std.specs.Prelude.{◌≡◌, ◌<◌, ◌≤◌, ◌+◌, ◌^◌, refl};
ghost use Rattle.std.specs.Ordering.{eq_by_cmp, as_partial_cmp};
ghost use Rattle.std.specs.Cmp.{eq_by_cmp_equiv, partial_equiv_from_equiv, partial_order_from_agreeing_total};
ghost use Rattle.caches.specs.contracts.key.KeyOrd.TheImpl.Laws as key_laws;
ghost use Rattle.caches.specs.Keys.{key_of, page_of, span_of};
ghost use Rattle.caches.specs.Ranks.{part_of};
ghost use Rattle.caches.specs.Slots.{slot_of};

use crate::key::Key;
use crate::tag::Tag;
use std::cmp::Ordering;
use std::marker::Model;

/// The number of pages that a rank has room for.
const PAGES: u128 = 1 << 64;

/// The number of spans that a rank has room for beside each page.
const SPANS: u128 = 1 << 8;

/// The number of substreams, or of stages with their address spaces, that a rank has room for beside each
/// span.
const PARTS: u128 = 1 << 22;

/// Odd numbers by which the halves of a rank are mixed into its slot.
const LOW_FACTOR: u64 = 0x9e37_79b9_7f4a_7c15;

const HIGH_FACTOR: u64 = 0xc2b2_ae3d_27d4_eb4f;

/// A key as one number, so that comparing two takes one operation. Contracts see it as the key.
#[derive(Clone, Copy)]
pub(crate) struct Rank {
    number: u128,
}

impl Model for Rank {
    ghost use Rattle.caches.specs.declared.key.Key.{Key};
    ghost use Rattle.caches.specs.Ranks.{key_at, number_of, IsRank};

    ghost Value = { Key };

    ghost view = { λ r. key_at r.number };

    ghost invariant = { λ r. IsRank r.number };

    ghost inverse = { λ k. record { number = number_of k } };

    ghost inverse_ok = { λ r h i. record { number = h.same i } };
}

impl PartialEq for Rank {
    ghost eq = { eq_by_cmp ⟦<Key as Ord>⟧.cmp };

    ghost laws = { partial_equiv_from_equiv (eq_by_cmp_equiv key_laws.total-law) };

    fn eq(&self, other: &Rank) -> bool {
        self.cmp(other).is_eq()
    }
}

impl Eq for Rank {
    ghost laws = { eq_by_cmp_equiv key_laws.total-law };
}

impl PartialOrd for Rank {
    ghost partial_cmp = { as_partial_cmp ⟦<Key as Ord>⟧.cmp };

    ghost laws = { partial_order_from_agreeing_total ⟦<Key as Ord>⟧.cmp key_laws.total-law (λ x y. refl) (λ x y. refl) };

    fn partial_cmp(&self, other: &Rank) -> Option<Ordering> {
        Some(self.cmp(other))
    }
}

impl Ord for Rank {
    ghost cmp = { ⟦<Key as Ord>⟧.cmp };

    ghost total = { key_laws.total-law };

    ghost matches_partial_cmp = { λ x y. refl };

    ghost matches_eq = { λ x y. refl };

    #[inline(always)]
    fn cmp(&self, other: &Rank) -> Ordering {
        self.number.cmp(&other.number)
    }
}

impl Default for Rank {
    fn default() -> Rank {
        Rank::at(Key::Configuration { sid: 0, ssid: None })
    }
}

impl Rank {
    /// Returns the rank of `key`.
    pub(crate) fn at(key: Key) -> Rank
        requires { part_of key < 2 ^ 22 }
        ensures { result ≡ key }
    {
        let owner = u128::from(key.owner_number());
        let page = u128::from(key.page());
        let span = u128::from(key.span());
        let part = u128::from(key.part());
        Rank {
            number: ((owner * PAGES + page) * SPANS + span) * PARTS + part,
        }
    }

    /// Returns the rank of the key of `tag`.
    pub(crate) fn of(tag: &Tag) -> Rank
        ensures key { result ≡ key_of tag.now }
        ensures page { page_of result < 2 ^ 52 }
    {
        Rank::at(Key::of(tag))
    }

    /// Returns the first page of its block, or 0 if it has none.
    pub(crate) fn page(&self) -> u64
        ensures { result ≡ page_of self.now }
    {
        (self.number / PARTS / SPANS % PAGES) as u64
    }

    /// Returns the first page past its block, below 2^53, or 1 if it has none.
    pub(crate) fn block_end(&self) -> u64
        requires span { span_of self.now ≤ 52 }
        requires page { page_of self.now < 2 ^ 52 }
        ensures { result ≡ page_of self.now + 2 ^ span_of self.now }
    {
        let span = (self.number / PARTS % SPANS) as u8;
        self.page() + (1 << span)
    }

    /// Returns its slot in an index: its mixed bits without the lower `shift` ones.
    pub(crate) fn slot(&self, shift: u32) -> usize
        requires { shift < 64 }
        ensures { result ≡ slot_of shift self.now }
    {
        let low = (self.number % PAGES) as u64;
        let high = (self.number / PAGES) as u64;
        let mixed = low
            .wrapping_mul(LOW_FACTOR)
            .wrapping_add(high.wrapping_mul(HIGH_FACTOR));
        (mixed >> shift) as usize
    }
}
