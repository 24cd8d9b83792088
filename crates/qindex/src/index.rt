//! Indexes: what a ring's registers keep of positions.
ghost use Rattle.std.specs.Prelude.{◌≡◌, ◌<◌, ◌≤◌, ℕ, ◌+◌, ◌-◌, ◌*◌, ◌^◌, ◌==◌};
ghost use Rattle.std.specs.Option.{SomeIff};
ghost use Rattle.qindex.specs.Positions.{size, place, wrap_bit, index_of};
ghost use Rattle.qindex.specs.Indexes.{IsIndex, IsIndexNumber, IsQueue, distance, is_empty, is_full};

use crate::geometry::Geometry;
use std::marker::Model;

/// A position modulo twice the ring's size: the place, and above it the wrap bit, which is set on odd laps
/// (circular queues). It keeps its ring's geometry.
#[derive(Clone, Copy, Debug, PartialEq, Eq)]
pub struct Index {
    geometry: Geometry,
    number: u32,
}

impl Model for Index {
    ghost use Rattle.qindex.specs.Positions.{IndexValue};
    ghost use Rattle.qindex.specs.Indexes.{IsIndex};

    ghost Value = { IndexValue };

    ghost view = { λ i. record { geometry = i.geometry; number = i.number } };

    ghost invariant = { λ i. IsIndex (record { geometry = i.geometry; number = i.number }) };

    ghost inverse = { λ v. record { geometry = v.geometry; number = v.number } };
}

impl Index {
    /// Returns the index with this number if it is below twice the size.
    pub fn new(geometry: Geometry, number: u32) -> Option<Index>
        ensures { SomeIff result (IsIndexNumber geometry number) (record { geometry = geometry; number = number }) }
    {
        if number < 2 * geometry.size() {
            Some(Index { geometry, number })
        } else {
            None
        }
    }

    /// Returns its ring's geometry.
    pub fn geometry(self) -> Geometry
        ensures { result ≡ self.geometry }
    {
        self.geometry
    }

    /// Returns its number, as SMMU_CMDQ_PROD.WR or SMMU_CMDQ_CONS.RD holds it: 20 bits.
    #[tactic(auto, using(crate::proofs::PositionLemmas::index_fits))]
    pub fn get(self) -> u32
        ensures value { result ≡ self.number }
        ensures in_range { IsIndex self }
        ensures bits { result < 2 ^ 20 }
    {
        self.number
    }

    /// Returns the slot, below the size.
    pub fn place(self) -> u32
        ensures value { result ≡ place self.geometry self.number }
        ensures in_range { result < size self.geometry }
        ensures position { (geometry position : ℕ) → self ≡ index_of geometry position → result ≡ place geometry position }
    {
        self.number & (self.geometry.size() - 1)
    }

    /// The wrap bit: whether the lap is odd.
    pub fn wrap(self) -> bool
        ensures value { result ≡ (wrap_bit self.geometry self.number == 1) }
        ensures position { (geometry position : ℕ) → self ≡ index_of geometry position → result ≡ (wrap_bit geometry position == 1) }
    {
        self.number >= self.geometry.size()
    }

    /// Returns the index `steps` positions further on. `steps` is at most the size.
    pub fn forward(self, steps: u32) -> Index
        requires steps { steps ≤ size self.geometry }
        ensures value { result ≡ index_of self.geometry (self.number + steps) }
        ensures position { (geometry position : ℕ) → self ≡ index_of geometry position → result ≡ index_of geometry (position + steps) }
    {
        Index {
            geometry: self.geometry,
            number: self.geometry.wrapped(self.number + steps),
        }
    }

    /// Returns how far this index is ahead of `cons`, below twice the size.
    pub fn distance(self, cons: Index) -> u32
        requires one_ring { self.geometry ≡ cons.geometry }
        ensures value { result ≡ distance self cons }
        ensures positions { (geometry tail head : ℕ) → IsQueue self cons geometry tail head → result ≡ tail - head }
    {
        let geometry = self.geometry;
        geometry.wrapped(self.number + 2 * geometry.size() - cons.number)
    }

    /// Whether a queue from `cons` up to this index is empty: place and wrap bit agree.
    pub fn is_empty(self, cons: Index) -> bool
        requires one_ring { self.geometry ≡ cons.geometry }
        ensures value { result ≡ is_empty self cons }
        ensures positions { (geometry tail head : ℕ) → IsQueue self cons geometry tail head → result ≡ (tail == head) }
    {
        self.number == cons.number
    }

    /// Whether a queue from `cons` up to this index is full: the places agree and the wrap bits differ.
    pub fn is_full(self, cons: Index) -> bool
        requires one_ring { self.geometry ≡ cons.geometry }
        ensures value { result ≡ is_full self cons }
        ensures positions { (geometry tail head : ℕ) → IsQueue self cons geometry tail head → result ≡ (tail == head + size geometry) }
    {
        self.place() == cons.place() && self.wrap() != cons.wrap()
    }
}
