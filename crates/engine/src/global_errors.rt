//! The bits of SMMU_GERROR and SMMU_GERRORN.
ghost use Rattle.std.specs.Prelude.{◌≡◌};
ghost use Rattle.engine.specs.Stops.{command_queue_bit, word_of};

use bitflags::{Flag, Flags, bitflag_items};

/// The bits of SMMU_GERROR and SMMU_GERRORN that can be set here.
#[derive(Clone, Copy, PartialEq, Eq, Debug)]
pub(crate) struct GlobalErrors(u32);

bitflag_items! {
    impl GlobalErrors: u32 {
        /// CMDQ_ERR.
        const COMMAND_QUEUE = 1;
    }
}

impl Flags for GlobalErrors {
    ghost use Rattle.std.specs.Prelude.{⊤, [], ◌∷◌, codes};

    type Bits = u32;

    ghost exact = { ⊤ };

    ghost table = { (codes "COMMAND_QUEUE", 1) ∷ [] };

    ghost set_of = { λ e. e.0 };

    fn flags<'a>() -> &'a [Flag<GlobalErrors>] {
        GlobalErrors::FLAGS
    }

    fn bits(&self) -> u32 {
        self.0
    }

    fn from_bits_retain(bits: u32) -> GlobalErrors {
        GlobalErrors(bits)
    }
}

/// Whether CMDQ_ERR is set in a word.
pub(crate) fn command_queue_bit(word: u32) -> bool
    ensures { result ≡ command_queue_bit word }
{
    GlobalErrors::from_bits_retain(word).contains(GlobalErrors::COMMAND_QUEUE)
}

/// The word of SMMU_GERROR or SMMU_GERRORN with this CMDQ_ERR.
pub(crate) fn word_of(bit: bool) -> u32
    ensures { result ≡ word_of bit }
{
    let mut errors = GlobalErrors::empty();
    errors.set(GlobalErrors::COMMAND_QUEUE, bit);
    errors.bits()
}
