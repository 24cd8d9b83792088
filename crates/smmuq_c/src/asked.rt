//! What the fields of a change ask for.
ghost use Rattle.std.specs.Prelude.{◌<◌, ◌^◌, IfSome};
ghost use Rattle.smmuq_c.specs.Changes.{IsCountable, IsSaidBy, SaysAsid, SaysBytes, SaysChange, SaysEntries, SaysInvalidation, SaysPolicy, SaysSpace, SaysSubstreams};

use crate::change::Change;
use cmdcodec::{Asid, Granule, Sid, Ssid, Vmid};
use invalidations::{
    ByteRange, Bytes, Endpoint, Entries, Invalidation, Level, Policy, Space, Substreams,
};

/// What a change asks for.
#[derive(Clone, Copy, Debug, PartialEq, Eq)]
pub(crate) enum Asked {
    /// Commands for translations.
    Translations(Invalidation, Policy),
    /// A command for what an endpoint caches of these bytes.
    Accesses(Endpoint, Bytes),
}

impl Change {
    fn bytes(&self) -> Option<Bytes>
        ensures { IsSaidBy (SaysBytes self.now) result }
    {
        match self.everything {
            0 => Some(Bytes::Range(ByteRange {
                first: self.first,
                length: self.length,
            })),
            1 => Some(Bytes::Everything),
            _ => None,
        }
    }

    fn asid(&self) -> Option<Option<Asid>>
        ensures { IsSaidBy (SaysAsid self.now) result }
    {
        match self.asids {
            0 => Some(None),
            1 | 2 => match Asid::new(u64::from(self.asid)) {
                Some(asid) => Some(Some(asid)),
                None => None,
            },
            _ => None,
        }
    }

    fn space(&self) -> Option<Space>
        ensures { IsSaidBy (SaysSpace self.now) result }
    {
        match self.kind {
            3 => {
                let vmid = Vmid::new(u64::from(self.vmid))?;
                let asid = self.asid()?;
                Some(Space::Stage1 { vmid, asid })
            }
            4 => {
                let vmid = Vmid::new(u64::from(self.vmid))?;
                Some(Space::Stage2 { vmid })
            }
            5 => {
                let asid = self.asid()?;
                Some(Space::Hypervisor { asid })
            }
            _ => None,
        }
    }

    fn entries(&self) -> Option<Entries>
        ensures { IsSaidBy (SaysEntries self.now) result }
    {
        let level = match self.ttl {
            0 => None,
            1 => Some(Level::One),
            2 => Some(Level::Two),
            3 => Some(Level::Three),
            _ => return None,
        };
        match (self.leaf, level) {
            (0, None) => Some(Entries::Any),
            (1, level) => Some(Entries::Leaves { level }),
            _ => None,
        }
    }

    fn invalidation(&self) -> Option<Invalidation>
        ensures { IsSaidBy (SaysInvalidation self.now) result }
    {
        let space = self.space()?;
        let bytes = self.bytes()?;
        let granule = Granule::new(u64::from(self.tg))?;
        let entries = self.entries()?;
        Some(Invalidation {
            space,
            bytes,
            granule,
            entries,
        })
    }

    fn policy(&self) -> Policy
        ensures said { SaysPolicy self.now result }
        ensures countable { result.most_commands < 2 ^ 32 }
    {
        Policy {
            most_commands: u64::from(self.most_commands),
            global_pages: self.asids == 1,
        }
    }

    fn substreams(&self) -> Option<Substreams>
        ensures { IsSaidBy (SaysSubstreams self.now) result }
    {
        match self.substreams {
            0 => Some(Substreams::All),
            1 => Some(Substreams::Each),
            2 => match Ssid::new(u64::from(self.ssid)) {
                Some(ssid) => Some(Substreams::One(ssid)),
                None => None,
            },
            _ => None,
        }
    }

    /// What its fields ask for, or `None` if one of them is out of range.
    pub(crate) fn asked(&self) -> Option<Asked>
        ensures said { IsSaidBy (SaysChange self.now) result }
        ensures countable { IfSome result IsCountable }
    {
        if self.kind == 8 {
            let sid = Sid::new(u64::from(self.sid)).unwrap();
            let substreams = self.substreams()?;
            let bytes = self.bytes()?;
            return Some(Asked::Accesses(Endpoint { sid, substreams }, bytes));
        }
        let invalidation = self.invalidation()?;
        Some(Asked::Translations(invalidation, self.policy()))
    }
}
