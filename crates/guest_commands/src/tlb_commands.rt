//! The host's TLB invalidations.
ghost use Rattle.std.specs.Prelude.{◌≡◌};
ghost use Rattle.guest_commands.specs.HostCommands.{all_of, by_asid, by_va, by_vaa, own_tlb_command, tlb_command};

use crate::guest::Guest;
use crate::limits::has_asid;
use crate::reach::host_reach;
use cmdcodec::{Asid, Command, Page, Reach};
use range_hints::Ttl;

impl Guest {
    /// All translations of the guest.
    fn all(&self) -> (Command, Ttl)
        ensures { result ≡ all_of self.now }
    {
        let vmid = self.vmid();
        (Command::TlbiNhAll { vmid }, Ttl::AnyLevel)
    }

    fn by_asid(&self, asid: Asid) -> Command
        ensures { result ≡ by_asid self.now asid }
    {
        let vmid = self.vmid();
        if has_asid(self.smmu(), asid) {
            Command::TlbiNhAsid { vmid, asid }
        } else {
            Command::TlbiNhAll { vmid }
        }
    }

    /// By address in an address space, or in all of them if the SMMU doesn't have that one.
    fn by_va(
        &self,
        asid: Asid,
        leaf: bool,
        page: Page,
        reach: Option<(Reach, Ttl)>,
    ) -> (Command, Ttl)
        ensures { result ≡ by_va self.now asid leaf page reach }
    {
        if !has_asid(self.smmu(), asid) {
            return self.by_vaa(leaf, page, reach);
        }
        let vmid = self.vmid();
        match reach {
            None => self.all(),
            Some((reach, ttl)) => (
                Command::TlbiNhVa {
                    vmid,
                    asid,
                    leaf,
                    page,
                    reach,
                },
                ttl,
            ),
        }
    }

    fn by_vaa(&self, leaf: bool, page: Page, reach: Option<(Reach, Ttl)>) -> (Command, Ttl)
        ensures { result ≡ by_vaa self.now leaf page reach }
    {
        let vmid = self.vmid();
        match reach {
            None => self.all(),
            Some((reach, ttl)) => (
                Command::TlbiNhVaa {
                    vmid,
                    leaf,
                    page,
                    reach,
                },
                ttl,
            ),
        }
    }

    fn own_tlb_command(&self, command: &Command, ttl: Ttl) -> Option<(Command, Ttl)>
        ensures { result ≡ own_tlb_command self.now command.now ttl }
    {
        match *command {
            Command::TlbiNhAll { .. } | Command::TlbiNsnhAll => Some(self.all()),
            Command::TlbiNhAsid { asid, .. } => Some((self.by_asid(asid), Ttl::AnyLevel)),
            Command::TlbiNhVa {
                asid,
                leaf,
                page,
                reach,
                ..
            } => Some(self.by_va(asid, leaf, page, host_reach(self.smmu(), reach, ttl))),
            Command::TlbiNhVaa {
                leaf,
                page,
                reach,
                ..
            } => Some(self.by_vaa(leaf, page, host_reach(self.smmu(), reach, ttl))),
            _ => None,
        }
    }

    /// Returns the host's TLB invalidation for one of the guest, with its hint, if the host has stage 1.
    pub(crate) fn tlb_command(&self, command: &Command, ttl: Ttl) -> Option<(Command, Ttl)>
        ensures { result ≡ tlb_command self.now command.now ttl }
    {
        if self.smmu().stage_1 {
            self.own_tlb_command(command, ttl)
        } else {
            None
        }
    }
}
