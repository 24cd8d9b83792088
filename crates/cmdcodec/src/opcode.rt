//! The opcodes of the profile.
ghost use Rattle.std.specs.Prelude.{◌≡◌, IfSome};
ghost use Rattle.cmdcodec.specs.Opcodes.{opcode_named, number_of};

/// The opcode of a command, from bits 7:0 of its low word.
#[derive(Clone, Copy, Debug, PartialEq, Eq)]
pub enum Opcode {
    /// CMD_PREFETCH_CONFIG.
    PrefetchConfig = 0x01,
    /// CMD_PREFETCH_ADDR.
    PrefetchAddr = 0x02,
    /// CMD_CFGI_STE.
    CfgiSte = 0x03,
    /// CMD_CFGI_STE_RANGE.
    CfgiSteRange = 0x04,
    /// CMD_CFGI_CD.
    CfgiCd = 0x05,
    /// CMD_CFGI_CD_ALL.
    CfgiCdAll = 0x06,
    /// CMD_TLBI_NH_ALL.
    TlbiNhAll = 0x10,
    /// CMD_TLBI_NH_ASID.
    TlbiNhAsid = 0x11,
    /// CMD_TLBI_NH_VA.
    TlbiNhVa = 0x12,
    /// CMD_TLBI_NH_VAA.
    TlbiNhVaa = 0x13,
    /// CMD_TLBI_EL2_ALL.
    TlbiEl2All = 0x20,
    /// CMD_TLBI_EL2_ASID.
    TlbiEl2Asid = 0x21,
    /// CMD_TLBI_EL2_VA.
    TlbiEl2Va = 0x22,
    /// CMD_TLBI_EL2_VAA.
    TlbiEl2Vaa = 0x23,
    /// CMD_TLBI_S12_VMALL.
    TlbiS12Vmall = 0x28,
    /// CMD_TLBI_S2_IPA.
    TlbiS2Ipa = 0x2a,
    /// CMD_TLBI_NSNH_ALL.
    TlbiNsnhAll = 0x30,
    /// CMD_ATC_INV.
    AtcInv = 0x40,
    /// CMD_PRI_RESP.
    PriResp = 0x41,
    /// CMD_RESUME.
    Resume = 0x44,
    /// CMD_STALL_TERM.
    StallTerm = 0x45,
    /// CMD_SYNC.
    CmdSync = 0x46,
}

impl Opcode {
    /// Returns the opcode with this number, or `None` if it isn't in the profile.
    ///
    /// Inlined since each command that is decoded would make the call.
    #[inline(always)]
    #[tactic(auto, unfolding(crate::specs::Opcodes::opcode_named))]
    pub fn new(number: u64) -> Option<Opcode>
        ensures named { result ≡ opcode_named number }
        ensures number { IfSome result (λ opcode. number_of opcode ≡ number) }
    {
        match number {
            0x01 => Some(Opcode::PrefetchConfig),
            0x02 => Some(Opcode::PrefetchAddr),
            0x03 => Some(Opcode::CfgiSte),
            0x04 => Some(Opcode::CfgiSteRange),
            0x05 => Some(Opcode::CfgiCd),
            0x06 => Some(Opcode::CfgiCdAll),
            0x10 => Some(Opcode::TlbiNhAll),
            0x11 => Some(Opcode::TlbiNhAsid),
            0x12 => Some(Opcode::TlbiNhVa),
            0x13 => Some(Opcode::TlbiNhVaa),
            0x20 => Some(Opcode::TlbiEl2All),
            0x21 => Some(Opcode::TlbiEl2Asid),
            0x22 => Some(Opcode::TlbiEl2Va),
            0x23 => Some(Opcode::TlbiEl2Vaa),
            0x28 => Some(Opcode::TlbiS12Vmall),
            0x2a => Some(Opcode::TlbiS2Ipa),
            0x30 => Some(Opcode::TlbiNsnhAll),
            0x40 => Some(Opcode::AtcInv),
            0x41 => Some(Opcode::PriResp),
            0x44 => Some(Opcode::Resume),
            0x45 => Some(Opcode::StallTerm),
            0x46 => Some(Opcode::CmdSync),
            _ => None,
        }
    }
}
