//! The control word: both indexes and the closed bit in one word.
ghost use Rattle.std.specs.Prelude.{◌≡◌, ◌≤◌, ◌<◌, ◌+◌, ◌*◌, ◌^◌, Some, MatchOption, ⊤};
ghost use Rattle.std.specs.Option.{SomeIff};
ghost use Rattle.qindex.specs.ControlWord.{IsControl, IsControlWord, packed, control_in, advance_mask as mask_of, close_mask as mask_to_close};

use crate::geometry::Geometry;
use crate::index::Index;

/// What the control word of a ring says.
#[derive(Clone, Copy, Debug, PartialEq, Eq)]
pub struct Control {
    /// Where the next command goes.
    pub prod: Index,
    /// The command that is taken next.
    pub cons: Index,
    /// Whether nothing more may be reserved.
    pub closed: bool,
}

/// The closed bit.
const CLOSED: u64 = 1 << 31;

impl Control {
    /// Returns the word: `prod` in bits 19:0, `closed` in bit 31, `cons` in bits 51:32, all other bits 0
    /// (own).
    pub fn pack(&self) -> u64
        ensures { result ≡ packed self.now }
    {
        (u64::from(self.cons.get()) << 32)
            + (u64::from(self.closed) << 31)
            + u64::from(self.prod.get())
    }

    /// Returns what a word says for a ring of this geometry, or `None` if another bit is set, an index isn't
    /// below twice the size, or the two are further apart than the size.
    pub fn unpack(geometry: Geometry, word: u64) -> Option<Control>
        ensures found { SomeIff result (IsControlWord geometry word) (control_in geometry word) }
        ensures undoes_pack { (control : Control) → IsControl geometry control → word ≡ packed control → result ≡ Some control }
        ensures packed_again { MatchOption result ⊤ (λ control. IsControl geometry control × (packed control ≡ word)) }
    {
        let prod = Index::new(geometry, (word & (CLOSED - 1)) as u32)?;
        let cons = Index::new(geometry, (word >> 32) as u32)?;
        if prod.distance(cons) > geometry.size() {
            return None;
        }
        Some(Control {
            prod,
            cons,
            closed: word & CLOSED != 0,
        })
    }

    /// Returns SMMU_CMDQ_PROD: `WR` is bits 19:0.
    pub fn prod_register(&self) -> u32
        ensures { result ≡ self.now.prod.number }
    {
        self.prod.get()
    }

    /// Returns SMMU_CMDQ_CONS: `RD` is bits 19:0, and `ERR`, at most 127, is bits 30:24.
    pub fn cons_register(&self, err: u32) -> u32
        requires { err ≤ 127 }
        ensures { result ≡ self.now.cons.number + err * 2 ^ 24 }
    {
        (err << 24) + self.cons.get()
    }
}

/// Returns the mask with which an exclusive or of the control word moves `cons` from one index to the other.
pub fn advance_mask(from: Index, to: Index) -> u64
    ensures { result ≡ mask_of from to }
{
    u64::from(from.get() ^ to.get()) << 32
}

/// Returns the mask with which an or of the control word closes it.
pub fn close_mask() -> u64
    ensures { result ≡ mask_to_close }
{
    CLOSED
}
