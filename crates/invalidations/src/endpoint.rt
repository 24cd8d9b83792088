//! The block of pages that an endpoint drops from its cache.
ghost use Rattle.std.specs.Prelude.{◌≡◌, ◌≤◌, ◌<◌, ◌/◌, ◌^◌, ℕ, Some, None, true, OnOk, IfOk, IfErr};
ghost use Rattle.invalidations.specs.Endpoints.{endpoint_command, block_page, IsLeastPower, ReachesEndpoint, has_substreams_of, endpoint_refusal, IsForBytes};
ghost use Rattle.invalidations.specs.Reaching.{IsServedIfAny};

use crate::fault::InvalidationFault;
use crate::invalidation::{ByteRange, Bytes};
use cmdcodec::{Command, Page, Sid, Size, Ssid};
use smmu_features::Smmu;

/// Which of an endpoint's accesses.
#[derive(Clone, Copy, Debug, PartialEq, Eq)]
pub enum Substreams {
    /// Those of any substream and of none: SSV 0.
    All,
    /// Those of one substream: SSV 1.
    One(Ssid),
    /// Those of each substream, but not of none: SSV 1, Global 1.
    Each,
}

/// What an endpoint caches.
#[derive(Clone, Copy, Debug, PartialEq, Eq)]
pub struct Endpoint {
    pub sid: Sid,
    pub substreams: Substreams,
}

impl Substreams {
    /// Whether the SMMU has such accesses.
    fn are_of(self, smmu: &Smmu) -> bool
        ensures { result ≡ has_substreams_of smmu.now self }
    {
        match self {
            Substreams::All => true,
            Substreams::One(ssid) => smmu.has_accesses(true, ssid, false),
            Substreams::Each => smmu.has_accesses(true, Ssid::new(0).unwrap(), true),
        }
    }
}

impl Endpoint {
    /// Returns the CMD_ATC_INV for the least block that holds these bytes, or `None` if there is no byte. It is
    /// refused where the SMMU has no ATS or not these substreams, and then where a byte is past the last address.
    #[tactic(auto, using(crate::proofs::EndpointLemmas::last_page_below, crate::proofs::EndpointLemmas::endpoint_served))]
    pub fn invalidate(
        &self,
        bytes: &Bytes,
        smmu: &Smmu,
    ) -> Result<Option<Command>, InvalidationFault>
        ensures made { OnOk result (endpoint_refusal self.now bytes.now smmu.now ≡ None) }
        ensures reached { IfOk result (IsForBytes self.now bytes.now) }
        ensures served { IfOk result (IsServedIfAny smmu.now) }
        ensures refused { IfErr result (λ fault. endpoint_refusal self.now bytes.now smmu.now
            ≡ Some fault) }
    {
        if !(smmu.ats && self.substreams.are_of(smmu)) {
            return Err(InvalidationFault::Unsupported);
        }
        let (first, last) = match *bytes {
            Bytes::Everything => (0, u64::MAX),
            Bytes::Range(ByteRange { length: 0, .. }) => return Ok(None),
            Bytes::Range(ByteRange { first, length }) => match first.checked_add(length - 1) {
                None => return Err(InvalidationFault::PastEnd),
                Some(last) => (first, last),
            },
        };
        Ok(Some(self.command(page_of(first), page_of(last))))
    }

    /// Returns the CMD_ATC_INV for the least block that holds the pages from `first` to `last`, both of them
    /// included.
    pub fn command(&self, first: Page, last: Page) -> Command
        requires { first ≤ last }
        ensures { ReachesEndpoint self.now first last result }
    {
        let power = least_power(first.get(), last.get());
        self.command_of_block(power, block_page(first, power))
    }

    fn command_of_block(&self, power: u8, page: Page) -> Command
        requires { power ≤ 52 }
        ensures { result ≡ endpoint_command self.now power page }
    {
        let sid = self.sid;
        let size = Size::new(u64::from(power)).unwrap();
        match self.substreams {
            Substreams::All => Command::AtcInv {
                sid,
                ssv: false,
                ssid: Ssid::new(0).unwrap(),
                global: false,
                size,
                page,
            },
            Substreams::One(ssid) => Command::AtcInv {
                sid,
                ssv: true,
                ssid,
                global: false,
                size,
                page,
            },
            Substreams::Each => Command::AtcInv {
                sid,
                ssv: true,
                ssid: Ssid::new(0).unwrap(),
                global: true,
                size,
                page,
            },
        }
    }
}

/// The page that holds an address.
fn page_of(address: u64) -> Page
    ensures { result ≡ address / 4096 }
{
    Page::new(address / 4096).unwrap()
}

/// The power of the least aligned block that holds both: one more than the place of their highest differing bit.
fn least_power(first: u64, last: u64) -> u8
    requires { (first < 2 ^ 52) × (last < 2 ^ 52) }
    ensures least { IsLeastPower first last result }
    ensures in_range { result ≤ 52 }
{
    (64 - (first ^ last).leading_zeros()) as u8
}

/// The first page of the aligned block of `2^power` pages that holds `page`.
#[tactic(auto, using(crate::proofs::EndpointLemmas::below_page))]
fn block_page(page: Page, power: u8) -> Page
    requires { power ≤ 52 }
    ensures { result ≡ block_page page power }
{
    Page::new(page.get() / (1 << power) * (1 << power)).unwrap()
}
