//! Why the caches refuse a call.
ghost use Rattle.std.specs.Prelude.{◌≡◌};
ghost use Rattle.caches.specs.Faults.{label_of};

use thiserror::Error;

/// Why a call was refused. A refused call changes nothing.
#[derive(Clone, Copy, PartialEq, Eq, Debug, Error)]
pub enum CacheFault {
    /// C1: the tag is new and the caches are full.
    #[error("C1: the caches are full")]
    Full,
    /// C2: the block of the tag isn't well formed.
    #[error("C2: the block isn't well formed")]
    BadBlock,
    /// C3: out of memory.
    #[error("C3: out of memory")]
    NoMemory,
    /// C4: the capacity isn't 1 to 65,536.
    #[error("C4: the capacity isn't 1 to 65,536")]
    BadCapacity,
}

impl CacheFault {
    /// Returns its label, `C1` to `C4`.
    pub fn label(self) -> &'static str
        ensures { result.now ≡ label_of self }
    {
        match self {
            CacheFault::Full => "C1",
            CacheFault::BadBlock => "C2",
            CacheFault::NoMemory => "C3",
            CacheFault::BadCapacity => "C4",
        }
    }
}
