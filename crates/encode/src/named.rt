//! The commands by their names, and the fields of each.
ghost use Rattle.std.specs.Prelude.{◌≡◌};
ghost use Rattle.encode.specs.Names.{name_of, opcode_called, fields_of};

use crate::field::Field::{
    self, Asid, Attr, Cs, Data, Global, Hi, IpaPage, Leaf, Lo, Msh, MsiWord, Num, Page, Range,
    Scale, Sid, Size, Ssid, Ssv, Tg, Vmid,
};
use cmdcodec::Opcode;

const OPCODES: [Opcode; 22] = [
    Opcode::PrefetchConfig,
    Opcode::PrefetchAddr,
    Opcode::CfgiSte,
    Opcode::CfgiSteRange,
    Opcode::CfgiCd,
    Opcode::CfgiCdAll,
    Opcode::TlbiNhAll,
    Opcode::TlbiNhAsid,
    Opcode::TlbiNhVa,
    Opcode::TlbiNhVaa,
    Opcode::TlbiEl2All,
    Opcode::TlbiEl2Asid,
    Opcode::TlbiEl2Va,
    Opcode::TlbiEl2Vaa,
    Opcode::TlbiS12Vmall,
    Opcode::TlbiS2Ipa,
    Opcode::TlbiNsnhAll,
    Opcode::AtcInv,
    Opcode::PriResp,
    Opcode::Resume,
    Opcode::StallTerm,
    Opcode::CmdSync,
];

/// The name of a command.
pub(crate) fn name(opcode: Opcode) -> &'static str
    ensures { result.now ≡ name_of opcode }
{
    match opcode {
        Opcode::PrefetchConfig => "PREFETCH_CONFIG",
        Opcode::PrefetchAddr => "PREFETCH_ADDR",
        Opcode::CfgiSte => "CFGI_STE",
        Opcode::CfgiSteRange => "CFGI_STE_RANGE",
        Opcode::CfgiCd => "CFGI_CD",
        Opcode::CfgiCdAll => "CFGI_CD_ALL",
        Opcode::TlbiNhAll => "TLBI_NH_ALL",
        Opcode::TlbiNhAsid => "TLBI_NH_ASID",
        Opcode::TlbiNhVa => "TLBI_NH_VA",
        Opcode::TlbiNhVaa => "TLBI_NH_VAA",
        Opcode::TlbiEl2All => "TLBI_EL2_ALL",
        Opcode::TlbiEl2Asid => "TLBI_EL2_ASID",
        Opcode::TlbiEl2Va => "TLBI_EL2_VA",
        Opcode::TlbiEl2Vaa => "TLBI_EL2_VAA",
        Opcode::TlbiS12Vmall => "TLBI_S12_VMALL",
        Opcode::TlbiS2Ipa => "TLBI_S2_IPA",
        Opcode::TlbiNsnhAll => "TLBI_NSNH_ALL",
        Opcode::AtcInv => "ATC_INV",
        Opcode::PriResp => "PRI_RESP",
        Opcode::Resume => "RESUME",
        Opcode::StallTerm => "STALL_TERM",
        Opcode::CmdSync => "CMD_SYNC",
    }
}

/// Returns the opcode of the command of this name, if any.
#[tactic(auto, unfolding(crate::specs::Names::opcode_called))]
pub(crate) fn opcode_called(word: &[u8]) -> Option<Opcode>
    ensures { result ≡ opcode_called word.now }
{
    OPCODES
        .iter()
        .copied()
        .find(|opcode| name(*opcode).as_bytes() == word)
}

/// The fields of a command. Those of a range may be left out.
pub(crate) fn fields_of(opcode: Opcode) -> &'static [Field]
    ensures { result.now ≡ fields_of opcode }
{
    match opcode {
        Opcode::CfgiSte => &[Sid, Leaf],
        Opcode::CfgiSteRange => &[Sid, Range],
        Opcode::CfgiCd => &[Sid, Ssid, Leaf],
        Opcode::CfgiCdAll => &[Sid],
        Opcode::TlbiNhAll | Opcode::TlbiS12Vmall => &[Vmid],
        Opcode::TlbiNhAsid => &[Vmid, Asid],
        Opcode::TlbiNhVa => &[Vmid, Asid, Leaf, Page, Tg, Num, Scale],
        Opcode::TlbiNhVaa => &[Vmid, Leaf, Page, Tg, Num, Scale],
        Opcode::TlbiEl2Asid => &[Asid],
        Opcode::TlbiEl2Va => &[Asid, Leaf, Page, Tg, Num, Scale],
        Opcode::TlbiEl2Vaa => &[Leaf, Page, Tg, Num, Scale],
        Opcode::TlbiS2Ipa => &[Vmid, Leaf, IpaPage, Tg, Num, Scale],
        Opcode::TlbiEl2All | Opcode::TlbiNsnhAll => &[],
        Opcode::AtcInv => &[Sid, Ssv, Ssid, Global, Size, Page],
        Opcode::CmdSync => &[Cs, Msh, Attr, Data, MsiWord],
        Opcode::PrefetchConfig
        | Opcode::PrefetchAddr
        | Opcode::PriResp
        | Opcode::Resume
        | Opcode::StallTerm => &[Lo, Hi],
    }
}
