//! Why an image is refused.
ghost use Rattle.std.specs.Prelude.{◌≡◌, ◌++◌, OnOk, string_bytes};
ghost use Rattle.image.specs.Queues.{fault_text};

use std::alloc::AllocError;
use std::fmt::Write;

/// Why an image is refused.
#[derive(Clone, Copy, Debug, PartialEq, Eq)]
pub(crate) enum ImageFault {
    /// The size isn't 2^1 to 2^19.
    BadLog2,
    /// PROD has a bit above the wrap bit.
    BadProd,
    /// CONS has a bit above the wrap bit that is none of ERR.
    BadCons,
    /// SMMU_GERROR is no number of 32 bits.
    BadGerror,
    /// SMMU_GERRORN is no number of 32 bits.
    BadGerrorn,
    /// PROD is this far ahead of CONS, which is more than there are slots.
    BadDistance(u32),
    /// The line of this number, counted from 1, is no line of a hex dump, or its address isn't 16 above that of the slot
    /// before it.
    BadLine(u64),
    /// The image has this many bytes, not 16 a slot.
    BadLength(usize),
}

/// Appends the one line of a fault.
pub(crate) fn say_fault(fault: ImageFault, text: &mut String) -> Result<(), AllocError>
    ensures { OnOk result (string_bytes text.new ≡ string_bytes text.old ++ fault_text fault) }
{
    match fault {
        ImageFault::BadLog2 => write!(text, "bad log2\n"),
        ImageFault::BadProd => write!(text, "bad prod\n"),
        ImageFault::BadCons => write!(text, "bad cons\n"),
        ImageFault::BadGerror => write!(text, "bad gerror\n"),
        ImageFault::BadGerrorn => write!(text, "bad gerrorn\n"),
        ImageFault::BadDistance(waiting) => write!(text, "bad distance {waiting}\n"),
        ImageFault::BadLine(number) => write!(text, "bad line {number}\n"),
        ImageFault::BadLength(bytes) => write!(text, "bad length {bytes}\n"),
    }
}
