//! The texts of invalidations of translations.
ghost use Rattle.std.specs.Prelude.{◌≡◌, true, Some};
ghost use Rattle.std.specs.Fmt.{DisplaysOnOk};
ghost use Rattle.cmdcodec.specs.Text.{text_of};
ghost use Rattle.cmdcodec.specs.Groups.{is_of_all_pages};
ghost use Rattle.cmdcodec.specs.ByAddress.{by_address};

use crate::by_address::ByAddress;
use crate::command::Command;
use std::fmt;

#[tactic(auto, unfolding(crate::specs::Text::text_of))]
pub(super) fn write_translations<W: fmt::Write>(
    command: &Command,
    f: &mut fmt::Formatter<W>,
) -> fmt::Result
    requires { is_of_all_pages command.now ≡ true }
    ensures { DisplaysOnOk W.write_str_gives f.old result (Some (text_of command.now)) f.new }
{
    match *command {
        Command::TlbiNhAll { vmid } => write!(f, "TLBI_NH_ALL vmid={}", vmid.get()),
        Command::TlbiNhAsid { vmid, asid } => {
            let (vmid, asid) = (vmid.get(), asid.get());
            write!(f, "TLBI_NH_ASID vmid={vmid} asid={asid}")
        }
        Command::TlbiEl2All => f.write_str("TLBI_EL2_ALL"),
        Command::TlbiEl2Asid { asid } => write!(f, "TLBI_EL2_ASID asid={}", asid.get()),
        Command::TlbiS12Vmall { vmid } => write!(f, "TLBI_S12_VMALL vmid={}", vmid.get()),
        Command::TlbiNsnhAll => f.write_str("TLBI_NSNH_ALL"),
        _ => unreachable!(),
    }
}

#[tactic(auto, unfolding(crate::specs::Text::text_of))]
pub(super) fn write_by_address<W: fmt::Write>(
    command: &Command,
    pages: ByAddress,
    f: &mut fmt::Formatter<W>,
) -> fmt::Result
    requires { by_address command.now ≡ Some pages }
    ensures { DisplaysOnOk W.write_str_gives f.old result (Some (text_of command.now)) f.new }
{
    match *command {
        Command::TlbiNhVa { vmid, asid, .. } => {
            let (vmid, asid) = (vmid.get(), asid.get());
            write!(f, "TLBI_NH_VA vmid={vmid} asid={asid}{pages}")
        }
        Command::TlbiNhVaa { vmid, .. } => write!(f, "TLBI_NH_VAA vmid={}{pages}", vmid.get()),
        Command::TlbiEl2Va { asid, .. } => write!(f, "TLBI_EL2_VA asid={}{pages}", asid.get()),
        Command::TlbiEl2Vaa { .. } => write!(f, "TLBI_EL2_VAA{pages}"),
        Command::TlbiS2Ipa { vmid, .. } => write!(f, "TLBI_S2_IPA vmid={}{pages}", vmid.get()),
        _ => unreachable!(),
    }
}
