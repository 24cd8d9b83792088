//! What an SMMU calls illegal by what it has.
ghost use Rattle.std.specs.Prelude.{◌≡◌, ◌<◌, ◌≤◌, ◌^◌, ◌==◌, ◌↔◌, nat_lt, None};
ghost use Rattle.cmdcodec.specs.Fields.{field};
ghost use Rattle.smmu_features.specs.Commands.{first_ill_for, has_command, has_accesses, has_accesses_of, has_accesses_in, IsLegalFor};

use crate::smmu::Smmu;
use cmdcodec::{Ill, Opcode, Raw, Ssid, first_ill};

impl Smmu {
    /// Whether the SMMU has the command with this opcode. One that it doesn't have is illegal, CERROR_ILL.
    pub fn has_command(&self, opcode: Opcode) -> bool
        ensures { result ≡ has_command self.now opcode }
    {
        match opcode {
            Opcode::CfgiCd
            | Opcode::CfgiCdAll
            | Opcode::TlbiNhAll
            | Opcode::TlbiNhAsid
            | Opcode::TlbiNhVa
            | Opcode::TlbiNhVaa => self.stage_1,
            Opcode::TlbiEl2All | Opcode::TlbiEl2Asid | Opcode::TlbiEl2Va | Opcode::TlbiEl2Vaa => {
                self.hypervisor
            }
            Opcode::TlbiS12Vmall | Opcode::TlbiS2Ipa => self.stage_2,
            Opcode::AtcInv => self.ats,
            Opcode::PriResp => self.pri,
            Opcode::Resume | Opcode::StallTerm => self.stalls,
            _ => true,
        }
    }

    /// Whether the SMMU has the accesses that a CMD_ATC_INV is for: with SSV 1 those of substreams, where Global is 0 of one
    /// with no more than SMMU_IDR1.SSIDSIZE bits. One for others is illegal, CERROR_ILL.
    pub fn has_accesses(&self, ssv: bool, ssid: Ssid, global: bool) -> bool
        ensures { result ≡ has_accesses self.now ssv ssid global }
    {
        let has_substreams = self.substream_bits > 0;
        !ssv || has_substreams && (global || fits(ssid.get(), self.substream_bits))
    }

    /// Returns the first thing that makes the words illegal for this SMMU, or `None` for legal ones. A command that the
    /// SMMU doesn't have, or for accesses that it doesn't have, is one with an unknown opcode (this project's choice). CMD_RESUME
    /// and CMD_STALL_TERM with SSec are for a Secure stream; all else is as `first_ill` says.
    pub fn judge(&self, raw: Raw) -> Option<Ill>
        ensures exact { result ≡ first_ill_for self.now raw }
        ensures legal { (result ≡ None) ↔ IsLegalFor self.now raw }
    {
        match raw.opcode() {
            Some(opcode) if !(self.has_command(opcode) && self.has_accesses_in(raw, opcode)) => {
                Some(Ill::UnknownOpcode)
            }
            Some(Opcode::Resume | Opcode::StallTerm) if is_set(raw.lo, 10) => {
                Some(Ill::SecureStream)
            }
            _ => first_ill(raw),
        }
    }

    fn has_accesses_in(&self, raw: Raw, opcode: Opcode) -> bool
        ensures { result ≡ has_accesses_in self.now raw opcode }
    {
        match opcode {
            Opcode::PrefetchConfig | Opcode::PrefetchAddr => self.has_accesses_of(raw, false),
            Opcode::AtcInv => self.has_accesses_of(raw, is_set(raw.lo, 9)),
            _ => true,
        }
    }

    fn has_accesses_of(&self, raw: Raw, global: bool) -> bool
        ensures { result ≡ has_accesses_of self.now raw global }
    {
        let ssid = Ssid::new((raw.lo >> 12) % (1 << 20)).unwrap();
        self.has_accesses(is_set(raw.lo, 11), ssid, global)
    }
}

/// Whether a bit of a word is 1.
fn is_set(word: u64, place: u32) -> bool
    requires { place < 64 }
    ensures { result ≡ (field word place place == 1) }
{
    (word >> place) % 2 == 1
}

/// Whether a number has no more than so many bits.
#[tactic(auto, using(crate::proofs::BitLemmas::wide_enough))]
fn fits(number: u32, bits: u32) -> bool
    ensures { result ≡ nat_lt number (2 ^ bits) }
{
    bits >= 32 || number < 1 << bits
}
