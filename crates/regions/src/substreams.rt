//! Substreams of a stream.
ghost use Rattle.std.specs.Prelude.{◌≡◌};
ghost use Rattle.regions.specs.Regions.{has_substream};

use cmdcodec::Ssid;

/// Which context descriptors of a stream.
#[derive(Clone, Copy, Debug, PartialEq, Eq)]
pub enum Substreams {
    /// All.
    Every,
    /// That of one substream.
    One(Ssid),
}

impl Substreams {
    /// Whether this one is among them.
    pub(crate) fn has(self, ssid: Ssid) -> bool
        ensures { result ≡ has_substream self ssid }
    {
        match self {
            Substreams::Every => true,
            Substreams::One(own) => ssid == own,
        }
    }
}
