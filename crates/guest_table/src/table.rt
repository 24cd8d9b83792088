//! The table of a host's guests.
ghost use Rattle.std.specs.Prelude.{◌≡◌, IfOk, IfErr, OnOk, OnErr, IfSome, IfNone, OnSome, IsOkUnless, Err, None, AllPairs};
ghost use Rattle.std.specs.Option.{option_copied};
ghost use Rattle.guest_commands.specs.Laws.{AreSeparate};
ghost use Rattle.guest_table.specs.Tables.{empty, guest_of, added, attached_in, detached_in, released, removed, freed, IsLeastFree, HaveNoEntryInCommon};
ghost use Rattle.guest_table.specs.Faults.{refusal, removal, IsAddFault};

use crate::fault::{TableFault, answer};
use crate::guests::{find, hosts, is_used, place};
use crate::leaving::is_leaving;
use crate::vmids::first_free;
use cmdcodec::{Sid, Vmid};
use detachment::Detached;
use guest_commands::{Guest, HostStream, entries_are_of_one_guest};
use smmu_features::Smmu;
use std::alloc::Global;
use std::marker::Model;

/// All guests of a host, and which VMIDs and streams of the host were a guest's and may still be cached.
#[derive(Drop)]
pub struct GuestTable {
    alloc: Global,
    /// What the host's SMMU has.
    smmu: Smmu,
    guests: Vec<Guest>,
    leaving_streams: Vec<Sid>,
    leaving_vmids: Vec<Vmid>,
}

impl Model for GuestTable {
    ghost use Rattle.guest_table.specs.Tables.{Table, IsTable, table_of};

    ghost Value = { Table };

    ghost view = { λ t. table_of t.smmu t.guests.items t.leaving_streams.items t.leaving_vmids.items };

    ghost invariant = { λ t. IsTable (table_of t.smmu t.guests.items t.leaving_streams.items t.leaving_vmids.items) };
}

impl GuestTable {
    /// Returns a table without guests for a host with this SMMU.
    pub fn new(alloc: Global, smmu: Smmu) -> GuestTable
        ensures { result ≡ empty smmu }
    {
        GuestTable {
            alloc,
            smmu,
            guests: Vec::new(alloc),
            leaving_streams: Vec::new(alloc),
            leaving_vmids: Vec::new(alloc),
        }
    }

    /// Makes a guest without streams, and returns its VMID: the least one from 1 on that is no guest's and isn't leaving.
    /// VMID 0 is the host's (this project's choice).
    ///
    /// Errors: `NoVmid`, or `NoMemory`.
    pub fn add(&mut self) -> Result<Vmid, TableFault>
        ensures ok { IfOk result (λ vmid. self.new ≡ added self.old vmid) }
        ensures least { IfOk result (IsLeastFree self.old) }
        ensures err { OnErr result (self.new ≡ self.old) }
        ensures fault { IfErr result (IsAddFault self.old) }
    {
        let Some(vmid) = first_free(&self.guests, &self.leaving_vmids) else {
            return Err(TableFault::NoVmid);
        };
        let Some(guest) = Guest::new(self.alloc, vmid, self.smmu) else {
            return Err(TableFault::NoVmid);
        };
        match self.guests.push(guest) {
            Ok(()) => Ok(vmid),
            Err(_) => Err(TableFault::NoMemory),
        }
    }

    /// Returns the guest with this VMID, if there is one.
    pub fn guest(&self, vmid: Vmid) -> Option<&Guest>
        ensures { option_copied result ≡ guest_of self.now vmid }
    {
        find(&self.guests, vmid)
    }

    /// Makes a stream of the host one of those that this stream of the guest is.
    ///
    /// Errors: the first that applies of `NoGuest`, `Leaving`, `Used`, `OutOfRange`, `Full` and `NoMemory`.
    pub fn attach(&mut self, vmid: Vmid, sid: Sid, host: HostStream) -> Result<(), TableFault>
        ensures ok { OnOk result (self.new ≡ attached_in self.old vmid sid host) }
        ensures err { OnErr result (self.new ≡ self.old) }
        ensures fault { IfSome (refusal self.old vmid sid host.sid) (λ fault. result ≡ Err fault) }
        ensures memory { IfNone (refusal self.old vmid sid host.sid)
            (IsOkUnless result TableFault.NoMemory) }
    {
        let Some(at) = place(&self.guests, vmid) else {
            return Err(TableFault::NoGuest);
        };
        if is_leaving(&self.leaving_streams, host.sid) {
            return Err(TableFault::Leaving);
        }
        if is_used(&self.guests, host.sid) {
            return Err(TableFault::Used);
        }
        let guest = &mut self.guests[at];
        answer(guest.attach(sid, host))
    }

    /// Takes a stream from a guest, with all streams of the host that it is: from then on they are leaving.
    ///
    /// Errors: `NoGuest`, or `NoMemory`.
    pub fn detach(&mut self, vmid: Vmid, sid: Sid) -> Result<(), TableFault>
        ensures ok { OnOk result (self.new ≡ detached_in self.old vmid sid) }
        ensures err { OnErr result (self.new ≡ self.old) }
        ensures fault { IfNone (guest_of self.old vmid) (result ≡ Err TableFault.NoGuest) }
        ensures memory { OnSome (guest_of self.old vmid) (IsOkUnless result TableFault.NoMemory) }
    {
        let Some(at) = place(&self.guests, vmid) else {
            return Err(TableFault::NoGuest);
        };
        let guest = &mut self.guests[at];
        let Ok(hosts) = hosts(self.alloc, guest, sid) else {
            return Err(TableFault::NoMemory);
        };
        if self.leaving_streams.extend_from_slice(&hosts).is_err() {
            return Err(TableFault::NoMemory);
        }
        guest.detach(sid);
        Ok(())
    }

    /// A stream of the host was detached, and is no longer leaving: it may be attached again, to any guest.
    ///
    /// The caller owes that the detachment began after `detach`, on the ring whose hardware serves these guests, and by
    /// what that SMMU and the stream have.
    pub fn release(&mut self, detached: Detached)
        ensures { self.new ≡ released self.old detached.stream.sid }
    {
        let sid = detached.sid();
        self.leaving_streams.retain(|other| *other != sid);
    }

    /// Takes a guest without streams off the table: from then on its VMID is leaving.
    ///
    /// Errors: the first that applies of `NoGuest`, `HasStreams` and `NoMemory`.
    pub fn remove(&mut self, vmid: Vmid) -> Result<(), TableFault>
        ensures ok { OnOk result (self.new ≡ removed self.old vmid) }
        ensures err { OnErr result (self.new ≡ self.old) }
        ensures fault { IfSome (removal self.old vmid) (λ fault. result ≡ Err fault) }
        ensures memory { IfNone (removal self.old vmid) (IsOkUnless result TableFault.NoMemory) }
    {
        let Some(at) = place(&self.guests, vmid) else {
            return Err(TableFault::NoGuest);
        };
        let guest = &self.guests[at];
        if !guest.streams().is_empty() {
            return Err(TableFault::HasStreams);
        }
        if self.leaving_vmids.push(vmid).is_err() {
            return Err(TableFault::NoMemory);
        }
        self.guests.retain(|guest| guest.vmid() != vmid);
        Ok(())
    }

    /// CMD_TLBI_S12_VMALL of this VMID was told complete, and it is no longer leaving: a new guest may get it.
    pub fn release_vmid(&mut self, vmid: Vmid)
        ensures { self.new ≡ freed self.old vmid }
    {
        self.leaving_vmids.retain(|other| *other != vmid);
    }

    /// A witness that any two guests are separate, so no entry of the host is of two. It does nothing.
    pub fn guests_are_separate(&self)
        ensures separate { AllPairs AreSeparate self.now.guests }
        ensures entries { HaveNoEntryInCommon self.now }
    {
        entries_are_of_one_guest();
        let _ = &self.guests;
    }
}
