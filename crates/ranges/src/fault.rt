//! Why a range is refused.
ghost use Rattle.std.specs.Prelude.{◌≡◌};
ghost use Rattle.ranges.specs.Answers.{fault_line};

/// Why a range is refused (this project's choice).
#[derive(Clone, Copy, Debug, PartialEq, Eq)]
pub enum RangeFault {
    /// The VMID is missing, or no number of 16 bits.
    BadVmid,
    /// The ASID is no number of 16 bits.
    BadAsid,
    /// The address is no number of 64 bits.
    BadAddress,
    /// The length is no number of 64 bits.
    BadLength,
    /// The granule is none of `4K`, `16K` and `64K`.
    BadGranule,
    /// A byte is past the last one: of 2^64, or of 2^52 at stage 2.
    PastEnd,
}

impl RangeFault {
    /// Returns the line that tells it.
    pub(crate) fn line(self) -> &'static str
        ensures { result.now ≡ fault_line self }
    {
        match self {
            RangeFault::BadVmid => "bad vmid\n",
            RangeFault::BadAsid => "bad asid\n",
            RangeFault::BadAddress => "bad address\n",
            RangeFault::BadLength => "bad length\n",
            RangeFault::BadGranule => "bad granule\n",
            RangeFault::PastEnd => "past the end\n",
        }
    }
}
