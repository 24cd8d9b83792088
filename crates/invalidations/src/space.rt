//! The address spaces whose translations are invalidated.
ghost use Rattle.std.specs.Prelude.{◌≡◌, ◌<◌, ◌^◌};
ghost use Rattle.invalidations.specs.declared.space.Space.TheVariants.{Stage1, Hypervisor};
ghost use Rattle.invalidations.specs.Spaces.{size_of, command_for, whole_command, with_global_pages};
ghost use Rattle.invalidations.specs.Plans.{has_stage};

use cmdcodec::{Asid, Command, IpaPage, Page, Reach, Vmid};
use smmu_features::Smmu;

/// The address space or spaces whose translations are invalidated.
#[derive(Clone, Copy, Debug, PartialEq, Eq)]
pub enum Space {
    /// Stage 1 of a virtual machine: one address space, or all of them.
    Stage1 { vmid: Vmid, asid: Option<Asid> },
    /// The hypervisor: one address space, or all of them.
    Hypervisor { asid: Option<Asid> },
    /// Stage 2 of a virtual machine, by intermediate physical address.
    Stage2 { vmid: Vmid },
}

impl Space {
    /// Returns the number of its pages.
    pub fn size(self) -> u64
        ensures { result ≡ size_of self }
    {
        match self {
            Space::Stage1 { .. } | Space::Hypervisor { .. } => 1 << 52,
            Space::Stage2 { .. } => 1 << 40,
        }
    }

    /// Returns the command for all of its pages. It covers global translations only where it is for all address
    /// spaces.
    pub fn whole(self) -> Command
        ensures { result ≡ whole_command self }
    {
        match self {
            Space::Stage1 { vmid, asid } => match asid {
                Some(asid) => Command::TlbiNhAsid { vmid, asid },
                None => Command::TlbiNhAll { vmid },
            },
            Space::Hypervisor { asid } => match asid {
                Some(asid) => Command::TlbiEl2Asid { asid },
                None => Command::TlbiEl2All,
            },
            Space::Stage2 { vmid } => Command::TlbiS12Vmall { vmid },
        }
    }

    /// Whether the SMMU has its stage.
    pub(crate) fn is_of(self, smmu: &Smmu) -> bool
        ensures { result ≡ has_stage smmu.now self }
    {
        match self {
            Space::Stage1 { .. } => smmu.stage_1,
            Space::Hypervisor { .. } => smmu.hypervisor,
            Space::Stage2 { .. } => smmu.stage_2,
        }
    }

    /// The space, with those that share its global pages.
    pub(crate) fn with_global_pages(self) -> Space
        ensures { result ≡ with_global_pages self }
    {
        match self {
            Space::Stage1 { vmid, .. } => Space::Stage1 { vmid, asid: None },
            Space::Hypervisor { .. } => Space::Hypervisor { asid: None },
            Space::Stage2 { vmid } => Space::Stage2 { vmid },
        }
    }

    /// Returns the command by address for it.
    pub(crate) fn command(self, leaf: bool, page: u64, reach: Reach) -> Command
        requires { page < size_of self }
        ensures { result ≡ command_for self leaf page reach }
    {
        match self {
            Space::Stage1 { vmid, asid } => stage1(vmid, asid, leaf, page, reach),
            Space::Hypervisor { asid } => hypervisor(asid, leaf, page, reach),
            Space::Stage2 { vmid } => Command::TlbiS2Ipa {
                vmid,
                leaf,
                page: IpaPage::new(page).unwrap(),
                reach,
            },
        }
    }
}

fn stage1(vmid: Vmid, asid: Option<Asid>, leaf: bool, page: u64, reach: Reach) -> Command
    requires { page < 2 ^ 52 }
    ensures { result ≡ command_for (Stage1 vmid asid) leaf page reach }
{
    let page = Page::new(page).unwrap();
    match asid {
        Some(asid) => Command::TlbiNhVa {
            vmid,
            asid,
            leaf,
            page,
            reach,
        },
        None => Command::TlbiNhVaa {
            vmid,
            leaf,
            page,
            reach,
        },
    }
}

fn hypervisor(asid: Option<Asid>, leaf: bool, page: u64, reach: Reach) -> Command
    requires { page < 2 ^ 52 }
    ensures { result ≡ command_for (Hypervisor asid) leaf page reach }
{
    let page = Page::new(page).unwrap();
    match asid {
        Some(asid) => Command::TlbiEl2Va {
            asid,
            leaf,
            page,
            reach,
        },
        None => Command::TlbiEl2Vaa { leaf, page, reach },
    }
}
