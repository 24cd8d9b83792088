//! The commands of the profile.
ghost use Rattle.std.specs.Prelude.{◌≡◌};
ghost use Rattle.cmdcodec.specs.PageRuns.{run_of};

use crate::fields::{
    Asid, Attr, Cs, IpaPage, Msh, MsiWord, Page, Sid, Size, Ssid, StreamRange, Vmid,
};
use crate::kept::KeptRaw;
use crate::reach::{PageRun, Reach};

/// A command. It is always legal: the field types keep every field in range.
///
/// `leaf` asks for last-level entries only; it narrows no command of this profile (own).
#[derive(Clone, Copy, PartialEq, Eq)]
pub enum Command {
    /// CMD_CFGI_STE: the stream table entry of a stream is no longer valid.
    CfgiSte {
        sid: Sid,
        leaf: bool,
    },
    /// CMD_CFGI_STE_RANGE: the stream table entries of the aligned block of `2^(range+1)` streams that holds
    /// `sid` are no longer valid.
    CfgiSteRange {
        sid: Sid,
        range: StreamRange,
    },
    /// CMD_CFGI_CD: the context descriptor of a substream is no longer valid.
    CfgiCd {
        sid: Sid,
        ssid: Ssid,
        leaf: bool,
    },
    /// CMD_CFGI_CD_ALL: all context descriptors of a stream are no longer valid.
    CfgiCdAll {
        sid: Sid,
    },
    /// CMD_TLBI_NH_ALL: drop the stage 1 translations of a virtual machine.
    TlbiNhAll {
        vmid: Vmid,
    },
    /// CMD_TLBI_NH_ASID: drop a virtual machine's stage 1 translations of one address space.
    TlbiNhAsid {
        vmid: Vmid,
        asid: Asid,
    },
    /// CMD_TLBI_NH_VA: drop a virtual machine's stage 1 translations of some pages in one address space.
    TlbiNhVa {
        vmid: Vmid,
        asid: Asid,
        leaf: bool,
        page: Page,
        reach: Reach,
    },
    /// CMD_TLBI_NH_VAA: drop a virtual machine's stage 1 translations of some pages in all address spaces.
    TlbiNhVaa {
        vmid: Vmid,
        leaf: bool,
        page: Page,
        reach: Reach,
    },
    /// CMD_TLBI_EL2_ALL: drop the hypervisor's translations.
    TlbiEl2All,
    /// CMD_TLBI_EL2_ASID: drop the hypervisor's translations of one address space.
    TlbiEl2Asid {
        asid: Asid,
    },
    /// CMD_TLBI_EL2_VA: drop the hypervisor's translations of some pages in one address space.
    TlbiEl2Va {
        asid: Asid,
        leaf: bool,
        page: Page,
        reach: Reach,
    },
    /// CMD_TLBI_EL2_VAA: drop the hypervisor's translations of some pages in all address spaces.
    TlbiEl2Vaa {
        leaf: bool,
        page: Page,
        reach: Reach,
    },
    /// CMD_TLBI_S12_VMALL: drop the translations of a virtual machine, of both stages.
    TlbiS12Vmall {
        vmid: Vmid,
    },
    /// CMD_TLBI_S2_IPA: drop a virtual machine's stage 2 translations of some intermediate physical pages.
    TlbiS2Ipa {
        vmid: Vmid,
        leaf: bool,
        page: IpaPage,
        reach: Reach,
    },
    /// CMD_TLBI_NSNH_ALL: drop the translations of all virtual machines.
    TlbiNsnhAll,
    /// CMD_ATC_INV: drop what an endpoint caches of the aligned block of `2^size` pages that holds `page`.
    AtcInv {
        sid: Sid,
        /// `SSV`, whether `ssid` and `global` mean anything.
        ssv: bool,
        ssid: Ssid,
        /// `Global`, all substreams.
        global: bool,
        size: Size,
        page: Page,
    },
    /// CMD_PREFETCH_CONFIG, CMD_PREFETCH_ADDR, CMD_PRI_RESP, CMD_RESUME or CMD_STALL_TERM.
    Kept(KeptRaw),
    /// CMD_SYNC: completes after all commands before it.
    CmdSync {
        cs: Cs,
        msh: Msh,
        attr: Attr,
        /// `MSIDATA`, the value of the completing write.
        data: u32,
        /// `MSIADDR`, the address of the completing write, without its two low bits.
        address: MsiWord,
    },
}

impl Command {
    /// Returns the page numbers that an invalidation by address reaches, or `None` for any other command.
    ///
    /// The run is cut at the end of the address space, `2^52` pages or `2^40` intermediate physical pages
    /// (own).
    pub fn pages(&self) -> Option<PageRun>
        ensures { result ≡ run_of self.now }
    {
        match *self {
            Command::TlbiNhVa { page, reach, .. }
            | Command::TlbiNhVaa { page, reach, .. }
            | Command::TlbiEl2Va { page, reach, .. }
            | Command::TlbiEl2Vaa { page, reach, .. } => Some(reach.run_from(page.get(), 1 << 52)),
            Command::TlbiS2Ipa { page, reach, .. } => Some(reach.run_from(page.get(), 1 << 40)),
            _ => None,
        }
    }
}
