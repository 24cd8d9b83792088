//! Accesses of an endpoint, by their SubstreamIDs.
ghost use Rattle.std.specs.Prelude.{◌≡◌};
ghost use Rattle.regions.specs.CommandRegions.{accesses_of};
ghost use Rattle.regions.specs.Regions.{has_access};

use cmdcodec::Ssid;

/// Which accesses of an endpoint CMD_ATC_INV is for.
#[derive(Clone, Copy, Debug, PartialEq, Eq)]
pub enum Accesses {
    /// All, with a SubstreamID or without: `SSV` 0.
    Every,
    /// Those with a SubstreamID, whichever it is: `SSV` 1 and `Global` 1.
    WithSubstream,
    /// Those with this SubstreamID: `SSV` 1 and `Global` 0.
    OfSubstream(Ssid),
}

impl Accesses {
    /// Returns those that `SSV`, `SubstreamID` and `Global` say.
    pub(crate) fn of(ssv: bool, ssid: Ssid, global: bool) -> Accesses
        ensures { result ≡ accesses_of ssv ssid global }
    {
        match (ssv, global) {
            (false, _) => Accesses::Every,
            (true, true) => Accesses::WithSubstream,
            (true, false) => Accesses::OfSubstream(ssid),
        }
    }

    /// Whether accesses with this SubstreamID, or without one, are among them.
    pub(crate) fn has(self, substream: Option<Ssid>) -> bool
        ensures { result ≡ has_access self substream }
    {
        match self {
            Accesses::Every => true,
            Accesses::WithSubstream => substream.is_some(),
            Accesses::OfSubstream(own) => match substream {
                None => false,
                Some(ssid) => ssid == own,
            },
        }
    }
}
