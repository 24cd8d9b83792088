//! Decodes two words into a command.
ghost use Rattle.std.specs.Prelude.{◌≡◌, ◌<◌, ◌≤◌, Some, None, Ok, Err, IfOk, IfErr};
ghost use Rattle.cmdcodec.specs.Fields.{field};
ghost use Rattle.cmdcodec.specs.Opcodes.{opcode_of, number_of};
ghost use Rattle.cmdcodec.specs.Spelling.{Spells};
ghost use Rattle.cmdcodec.specs.Legality.{first_ill};
ghost use Rattle.cmdcodec.specs.Words.{command_with, decoding};
ghost use Rattle.cmdcodec.specs.declared.command.Command.{Command};
ghost use Rattle.cmdcodec.specs.declared.ill.Ill.{Ill};
ghost use Rattle.cmdcodec.specs.declared.opcode.Opcode.TheVariants.{CfgiSteRange, CfgiCd, TlbiNhVa, TlbiNhVaa, TlbiEl2Va, TlbiEl2Vaa, TlbiS2Ipa, AtcInv, CmdSync};

use crate::bits::field;
use crate::command::Command;
use crate::fields::{Attr, Cs, IpaPage, Msh, MsiWord, Size, StreamRange};
use crate::ill::Ill;
use crate::kept::KeptRaw;
use crate::legality::first_ill;
use crate::opcode::Opcode;
use crate::raw::Raw;

/// Returns the command that the words spell, or their first fault.
#[inline(always)]
#[tactic(auto, unfolding(crate::specs::Words::decoding))]
pub fn decode(raw: Raw) -> Result<Command, Ill>
    ensures exact { result ≡ decoding raw }
    ensures found { IfOk result (λ command. Spells raw command × (first_ill raw ≡ None)) }
    ensures only { (command : Command) → Spells raw command → result ≡ Ok command }
    ensures fault { (ill : Ill) → first_ill raw ≡ Some ill → result ≡ Err ill }
    ensures first { IfErr result (λ ill. first_ill raw ≡ Some ill) }
{
    let Some(opcode) = raw.opcode() else {
        return Err(Ill::UnknownOpcode);
    };
    match first_ill(raw) {
        Some(ill) => Err(ill),
        None => Ok(command_with(opcode, raw)),
    }
}

/// Reads the fields of a command with this opcode.
///
/// Inlined so that who only asks whether words are legal builds no command.
#[inline(always)]
fn command_with(opcode: Opcode, raw: Raw) -> Command
    requires opcode { number_of opcode ≡ opcode_of raw }
    requires legal { first_ill raw ≡ None }
    ensures { result ≡ command_with opcode raw }
{
    let (sid, vmid, asid, leaf) = (raw.sid(), raw.vmid(), raw.asid(), raw.leaf());
    match opcode {
        Opcode::CfgiSte => Command::CfgiSte { sid, leaf },
        Opcode::CfgiSteRange => cfgi_ste_range(raw),
        Opcode::CfgiCd => cfgi_cd(raw),
        Opcode::CfgiCdAll => Command::CfgiCdAll { sid },
        Opcode::TlbiNhAll => Command::TlbiNhAll { vmid },
        Opcode::TlbiNhAsid => Command::TlbiNhAsid { vmid, asid },
        Opcode::TlbiNhVa => tlbi_nh_va(raw),
        Opcode::TlbiNhVaa => tlbi_nh_vaa(raw),
        Opcode::TlbiEl2All => Command::TlbiEl2All,
        Opcode::TlbiEl2Asid => Command::TlbiEl2Asid { asid },
        Opcode::TlbiEl2Va => tlbi_el2_va(raw),
        Opcode::TlbiEl2Vaa => tlbi_el2_vaa(raw),
        Opcode::TlbiS12Vmall => Command::TlbiS12Vmall { vmid },
        Opcode::TlbiS2Ipa => tlbi_s2_ipa(raw),
        Opcode::TlbiNsnhAll => Command::TlbiNsnhAll,
        Opcode::AtcInv => atc_inv(raw),
        Opcode::PrefetchConfig
        | Opcode::PrefetchAddr
        | Opcode::PriResp
        | Opcode::Resume
        | Opcode::StallTerm => Command::Kept(KeptRaw::new(raw).unwrap()),
        Opcode::CmdSync => cmd_sync(raw),
    }
}

fn cfgi_ste_range(raw: Raw) -> Command
    ensures { result ≡ command_with CfgiSteRange raw }
{
    Command::CfgiSteRange {
        sid: raw.sid(),
        range: StreamRange::new(field(raw.hi, 4, 0)).unwrap(),
    }
}

fn cfgi_cd(raw: Raw) -> Command
    ensures { result ≡ command_with CfgiCd raw }
{
    Command::CfgiCd {
        sid: raw.sid(),
        ssid: raw.ssid(),
        leaf: raw.leaf(),
    }
}

fn tlbi_nh_va(raw: Raw) -> Command
    ensures { result ≡ command_with TlbiNhVa raw }
{
    Command::TlbiNhVa {
        vmid: raw.vmid(),
        asid: raw.asid(),
        leaf: raw.leaf(),
        page: raw.page(),
        reach: raw.reach(),
    }
}

fn tlbi_nh_vaa(raw: Raw) -> Command
    ensures { result ≡ command_with TlbiNhVaa raw }
{
    Command::TlbiNhVaa {
        vmid: raw.vmid(),
        leaf: raw.leaf(),
        page: raw.page(),
        reach: raw.reach(),
    }
}

fn tlbi_el2_va(raw: Raw) -> Command
    ensures { result ≡ command_with TlbiEl2Va raw }
{
    Command::TlbiEl2Va {
        asid: raw.asid(),
        leaf: raw.leaf(),
        page: raw.page(),
        reach: raw.reach(),
    }
}

fn tlbi_el2_vaa(raw: Raw) -> Command
    ensures { result ≡ command_with TlbiEl2Vaa raw }
{
    Command::TlbiEl2Vaa {
        leaf: raw.leaf(),
        page: raw.page(),
        reach: raw.reach(),
    }
}

fn tlbi_s2_ipa(raw: Raw) -> Command
    ensures { result ≡ command_with TlbiS2Ipa raw }
{
    Command::TlbiS2Ipa {
        vmid: raw.vmid(),
        leaf: raw.leaf(),
        page: IpaPage::new(field(raw.hi, 51, 12)).unwrap(),
        reach: raw.reach(),
    }
}

fn atc_inv(raw: Raw) -> Command
    requires { field raw.hi 5 0 ≤ 52 }
    ensures { result ≡ command_with AtcInv raw }
{
    Command::AtcInv {
        sid: raw.sid(),
        ssv: field(raw.lo, 11, 11) == 1,
        ssid: raw.ssid(),
        global: field(raw.lo, 9, 9) == 1,
        size: Size::new(field(raw.hi, 5, 0)).unwrap(),
        page: raw.page(),
    }
}

fn cmd_sync(raw: Raw) -> Command
    requires { field raw.lo 13 12 < 3 }
    ensures { result ≡ command_with CmdSync raw }
{
    Command::CmdSync {
        cs: Cs::new(field(raw.lo, 13, 12)).unwrap(),
        msh: Msh::new(field(raw.lo, 23, 22)).unwrap(),
        attr: Attr::new(field(raw.lo, 27, 24)).unwrap(),
        data: field(raw.lo, 63, 32) as u32,
        address: MsiWord::new(field(raw.hi, 51, 2)).unwrap(),
    }
}
