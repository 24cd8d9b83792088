//! What a guest's numbers stand for on the host.
ghost use Rattle.std.specs.Prelude.{◌≡◌, OnOk, OnErr, IfSome, IfNone, IsOkUnless, Err, true, length};
ghost use Rattle.std.specs.Option.{SomeIff};
ghost use Rattle.guest_commands.specs.Limits.{has_vmid};
ghost use Rattle.guest_commands.specs.Mappings.{is_used, attached_to, attached, detached, without_streams, refusal, IsMapping};

use crate::fault::AttachFault;
use crate::limits::{has_stream, has_vmid};
use crate::streams::{Attachment, HostStream};
use cmdcodec::{MOST_BODY_COMMANDS, Sid, Vmid};
use smmu_features::Smmu;
use std::alloc::Global;
use std::marker::Model;

/// A guest: the VMID that it has on the host, and its streams. It has a stage 1, but neither stage 2 nor EL2.
#[derive(Drop)]
pub struct Guest {
    vmid: Vmid,
    /// What the host's SMMU has.
    smmu: Smmu,
    streams: Vec<Attachment>,
}

impl Model for Guest {
    ghost use Rattle.guest_commands.specs.Mappings.{Mapping, IsMapping};

    ghost Value = { Mapping };

    ghost view = { λ guest. record { vmid = guest.vmid; smmu = guest.smmu; streams = guest.streams.items } };

    ghost invariant = { λ guest. IsMapping (record { vmid = guest.vmid; smmu = guest.smmu; streams = guest.streams.items }) };
}

impl Guest {
    /// Returns a guest without streams on a host with this SMMU, or `None` if the SMMU doesn't have the VMID
    /// (SMMU_IDR0.VMID16).
    pub fn new(alloc: Global, vmid: Vmid, smmu: Smmu) -> Option<Guest>
        ensures { SomeIff result (has_vmid smmu vmid ≡ true) (without_streams vmid smmu) }
    {
        if !has_vmid(&smmu, vmid) {
            return None;
        }
        Some(Guest {
            vmid,
            smmu,
            streams: Vec::new(alloc),
        })
    }

    /// Returns the VMID that the guest has on the host.
    pub fn vmid(&self) -> Vmid
        ensures { result ≡ self.now.vmid }
    {
        self.vmid
    }

    /// Returns what the host's SMMU has.
    pub fn smmu(&self) -> &Smmu
        ensures { result.now ≡ self.now.smmu }
    {
        &self.smmu
    }

    /// Returns which streams of the host the guest's streams are, in the order in which they were attached.
    pub fn streams(&self) -> &[Attachment]
        ensures value { result.now ≡ self.now.streams }
        ensures mapping { IsMapping self.now }
    {
        self.streams.as_slice()
    }

    /// Whether some stream of the guest is this one of the host.
    pub fn is_used(&self, host: Sid) -> bool
        ensures { result ≡ is_used self.now host }
    {
        self.streams.iter().any(|stream| stream.host.sid == host)
    }

    /// Makes a stream of the host one of those that this stream of the guest is. Errors: the first of V1, V2, V3 and V4
    /// that applies.
    pub fn attach(&mut self, sid: Sid, host: HostStream) -> Result<(), AttachFault>
        ensures ok { OnOk result (self.new ≡ attached self.old sid host) }
        ensures err { OnErr result (self.new ≡ self.old) }
        ensures fault { IfSome (refusal self.old sid host.sid) (λ fault. result ≡ Err fault) }
        ensures memory { IfNone (refusal self.old sid host.sid)
            (IsOkUnless result AttachFault.NoMemory) }
    {
        if !has_stream(&self.smmu, host.sid) {
            return Err(AttachFault::OutOfRange);
        }
        if self.is_used(host.sid) {
            return Err(AttachFault::Used);
        }
        if self.count(sid) == MOST_BODY_COMMANDS {
            return Err(AttachFault::Full);
        }
        match self.streams.push(Attachment { sid, host }) {
            Ok(()) => Ok(()),
            Err(_) => Err(AttachFault::NoMemory),
        }
    }

    /// The number of streams of the host that this stream of the guest is.
    fn count(&self, sid: Sid) -> usize
        ensures { result ≡ length (attached_to self.now.streams sid) }
    {
        self.streams
            .iter()
            .filter(|stream| stream.sid == sid)
            .count()
    }

    /// Takes a stream from the guest, with all streams of the host that it is.
    ///
    /// The caller first invalidates what the host has cached of them.
    pub fn detach(&mut self, sid: Sid)
        ensures { self.new ≡ detached self.old sid }
    {
        self.streams.retain(|stream| stream.sid != sid);
    }
}
