//! The keys of the ordered map. They are ordered by what commands look for.
ghost use Rattle.std.specs.Prelude.{◌≡◌, ◌<◌, ◌^◌};
ghost use Rattle.caches.specs.Keys.{key_of, page_of, span_of, asid_of, least};
ghost use Rattle.caches.specs.Ranks.{id_of, option_number, owner_number, part_of};

use crate::rank::Rank;
use crate::tag::{Scope, Tag};

/// The number of streams or virtual machines that an owner's number has room for.
const IDS: u64 = 1 << 32;

/// The stage of a virtual machine's translation. Stage 1 has an address space, or `None` for all.
#[derive(Clone, Copy, PartialEq, Eq, PartialOrd, Ord, Debug)]
pub(crate) enum Stage {
    Two,
    One(Option<u16>),
}

/// Where an entry is in the map: stream table entries and context descriptors are ordered by stream,
/// translations by owner and then by page.
#[derive(Clone, Copy, PartialEq, Eq, PartialOrd, Ord, Debug)]
pub(crate) enum Key {
    Configuration {
        sid: u32,
        ssid: Option<u32>,
    },
    Machine {
        vmid: u16,
        page: u64,
        span: u8,
        stage: Stage,
    },
    Hypervisor {
        page: u64,
        span: u8,
        asid: Option<u16>,
    },
    Endpoint {
        sid: u32,
        page: u64,
        span: u8,
        ssid: Option<u32>,
    },
}

/// The owner of translations: a virtual machine, the hypervisor, or the endpoint of a stream.
#[derive(Clone, Copy)]
pub(crate) enum Owner {
    Guest(u16),
    Host,
    Device(u32),
}

fn asid_of(scope: Scope) -> Option<u16>
    ensures { result ≡ asid_of scope }
{
    match scope {
        Scope::Global => None,
        Scope::Of(asid) => Some(asid.get()),
    }
}

impl Key {
    /// Returns the key of `tag`.
    pub(crate) fn of(tag: &Tag) -> Key
        ensures key { result ≡ key_of tag.now }
        ensures page { page_of result < 2 ^ 52 }
        ensures part { part_of result < 2 ^ 22 }
    {
        match *tag {
            Tag::Ste { sid } => Key::Configuration {
                sid: sid.get(),
                ssid: None,
            },
            Tag::Cd { sid, ssid } => Key::Configuration {
                sid: sid.get(),
                ssid: Some(ssid.get()),
            },
            Tag::S1 {
                vmid,
                scope,
                page,
                span,
            } => Key::Machine {
                vmid: vmid.get(),
                page: page.get(),
                span,
                stage: Stage::One(asid_of(scope)),
            },
            Tag::S2 { vmid, page, span } => Key::Machine {
                vmid: vmid.get(),
                page: page.get(),
                span,
                stage: Stage::Two,
            },
            Tag::El2 { scope, page, span } => Key::Hypervisor {
                page: page.get(),
                span,
                asid: asid_of(scope),
            },
            Tag::Atc {
                sid,
                ssid,
                page,
                span,
            } => Key::Endpoint {
                sid: sid.get(),
                page: page.get(),
                span,
                ssid: match ssid {
                    None => None,
                    Some(ssid) => Some(ssid.get()),
                },
            },
        }
    }

    /// Returns the span of its block, or 0 if it has none.
    pub(crate) fn span(&self) -> u8
        ensures { result ≡ span_of self.now }
    {
        match *self {
            Key::Configuration { .. } => 0,
            Key::Machine { span, .. } | Key::Hypervisor { span, .. } | Key::Endpoint { span, .. } =>
                span,
        }
    }

    /// Returns the first page of its block, or 0 if it has none.
    pub(crate) fn page(&self) -> u64
        ensures { result ≡ page_of self.now }
    {
        match *self {
            Key::Configuration { .. } => 0,
            Key::Machine { page, .. } | Key::Hypervisor { page, .. } | Key::Endpoint { page, .. } =>
                page,
        }
    }

    /// Returns its kind and id as one number.
    pub(crate) fn owner_number(&self) -> u64
        ensures value { result ≡ owner_number self.now }
        ensures id { id_of self.now < 2 ^ 32 }
        ensures few { result < 2 ^ 34 }
    {
        match *self {
            Key::Configuration { sid, .. } => u64::from(sid),
            Key::Machine { vmid, .. } => IDS + u64::from(vmid),
            Key::Hypervisor { .. } => 2 * IDS,
            Key::Endpoint { sid, .. } => 3 * IDS + u64::from(sid),
        }
    }

    /// Returns the rest of the key as a number: its substream, its address space, or its stage with the
    /// address space.
    pub(crate) fn part(&self) -> u32
        requires { part_of self.now < 2 ^ 22 }
        ensures { result ≡ part_of self.now }
    {
        match *self {
            Key::Configuration { ssid, .. } | Key::Endpoint { ssid, .. } => ssid_number(ssid),
            Key::Machine { stage, .. } => match stage {
                Stage::Two => 0,
                Stage::One(asid) => asid_number(asid) + 1,
            },
            Key::Hypervisor { asid, .. } => asid_number(asid),
        }
    }
}

fn ssid_number(ssid: Option<u32>) -> u32
    requires { option_number ssid < 2 ^ 22 }
    ensures { result ≡ option_number ssid }
{
    match ssid {
        None => 0,
        Some(ssid) => ssid + 1,
    }
}

fn asid_number(asid: Option<u16>) -> u32
    ensures value { result ≡ option_number asid }
    ensures few { result < 2 ^ 17 }
{
    match asid {
        None => 0,
        Some(asid) => u32::from(asid) + 1,
    }
}

impl Owner {
    /// Returns the rank of the least key with this owner, page and span.
    pub(crate) fn least(self, page: u64, span: u8) -> Rank
        ensures { result ≡ least self page span }
    {
        Rank::at(self.least_key(page, span))
    }

    fn least_key(self, page: u64, span: u8) -> Key
        ensures key { result ≡ least self page span }
        ensures part { part_of result < 2 ^ 22 }
    {
        match self {
            Owner::Guest(vmid) => Key::Machine {
                vmid,
                page,
                span,
                stage: Stage::Two,
            },
            Owner::Host => Key::Hypervisor {
                page,
                span,
                asid: None,
            },
            Owner::Device(sid) => Key::Endpoint {
                sid,
                page,
                span,
                ssid: None,
            },
        }
    }
}
