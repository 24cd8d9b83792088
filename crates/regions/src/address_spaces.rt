//! Address spaces of a stage 1, by their ASIDs.
ghost use Rattle.std.specs.Prelude.{◌≡◌};
ghost use Rattle.regions.specs.Regions.{has_scope};

use caches::Scope;
use cmdcodec::Asid;

/// Which translations of a stage 1, by the address space that each is for. A global translation, `nG` 0, is for all
/// of them.
#[derive(Clone, Copy, Debug, PartialEq, Eq)]
pub enum AddressSpaces {
    /// All, and the global ones.
    Every,
    /// Those of one address space, and the global ones.
    OneAndGlobal(Asid),
    /// Those of one address space. The global ones stay.
    One(Asid),
}

impl AddressSpaces {
    /// Whether translations of this scope are among them.
    pub(crate) fn has(self, scope: Scope) -> bool
        ensures { result ≡ has_scope self scope }
    {
        match scope {
            Scope::Global => !matches!(self, AddressSpaces::One(_)),
            Scope::Of(asid) => match self {
                AddressSpaces::Every => true,
                AddressSpaces::OneAndGlobal(own) | AddressSpaces::One(own) => asid == own,
            },
        }
    }
}
