//! Encodes a command into its two words.
ghost use Rattle.std.specs.Prelude.{◌≡◌, ◌<◌, ◌≤◌, ◌*◌, ◌-◌, ◌^◌, true, Ok};
ghost use Rattle.cmdcodec.specs.Spelling.{Spells, SpellsInLo, SpellsInHi};
ghost use Rattle.cmdcodec.specs.FreeBits.{HasFreeBitsZero, AreZero, free_in_lo, free_in_hi};
ghost use Rattle.cmdcodec.specs.Groups.{is_atc_inv, is_sync};
ghost use Rattle.cmdcodec.specs.Words.{encoding, decoding, steps_word, granule_word};

use crate::by_address::ByAddress;
use crate::command::Command;
use crate::fields::{Asid, Sid, Vmid};
use crate::opcode::Opcode;
use crate::raw::Raw;
use crate::reach::Reach;

/// Returns the words that spell `command`, with every free bit 0.
#[tactic(auto, unfolding(crate::specs::Words::encoding, crate::specs::Words::decoding))]
pub fn encode(command: &Command) -> Raw
    ensures words { result ≡ encoding command.now }
    ensures spells { Spells result command.now }
    ensures free_bits { HasFreeBitsZero result command.now }
    ensures decoded_again { decoding result ≡ Ok command.now }
{
    Raw {
        lo: low_word(*command),
        hi: high_word(*command),
    }
}

#[tactic(auto, unfolding(crate::specs::Words::encoding))]
fn low_word(command: Command) -> u64
    ensures word { result ≡ (encoding command).lo }
    ensures spells { SpellsInLo result command }
    ensures free_bits { AreZero result (free_in_lo command) }
{
    match command {
        Command::CfgiSte { sid, .. } => Opcode::CfgiSte as u64 + stream_word(sid),
        Command::CfgiSteRange { sid, .. } => Opcode::CfgiSteRange as u64 + stream_word(sid),
        Command::CfgiCd { sid, ssid, .. } => Opcode::CfgiCd as u64
            + (u64::from(ssid.get()) << 12)
            + stream_word(sid),
        Command::CfgiCdAll { sid } => Opcode::CfgiCdAll as u64 + stream_word(sid),
        Command::TlbiNhAll { vmid } => Opcode::TlbiNhAll as u64 + machine_word(vmid),
        Command::TlbiNhAsid { vmid, asid } => Opcode::TlbiNhAsid as u64
            + machine_word(vmid)
            + space_word(asid),
        Command::TlbiNhVa {
            vmid,
            asid,
            reach,
            ..
        } => Opcode::TlbiNhVa as u64 + steps_word(reach) + machine_word(vmid) + space_word(asid),
        Command::TlbiNhVaa { vmid, reach, .. } => Opcode::TlbiNhVaa as u64
            + steps_word(reach)
            + machine_word(vmid),
        Command::TlbiEl2All => Opcode::TlbiEl2All as u64,
        Command::TlbiEl2Asid { asid } => Opcode::TlbiEl2Asid as u64 + space_word(asid),
        Command::TlbiEl2Va { asid, reach, .. } => Opcode::TlbiEl2Va as u64
            + steps_word(reach)
            + space_word(asid),
        Command::TlbiEl2Vaa { reach, .. } => Opcode::TlbiEl2Vaa as u64 + steps_word(reach),
        Command::TlbiS12Vmall { vmid } => Opcode::TlbiS12Vmall as u64 + machine_word(vmid),
        Command::TlbiS2Ipa { vmid, reach, .. } => Opcode::TlbiS2Ipa as u64
            + steps_word(reach)
            + machine_word(vmid),
        Command::TlbiNsnhAll => Opcode::TlbiNsnhAll as u64,
        Command::AtcInv { .. } => atc_inv_word(command),
        Command::Kept(kept) => kept.get().lo,
        Command::CmdSync { .. } => sync_word(command),
    }
}

#[tactic(auto, unfolding(crate::specs::Words::encoding))]
fn atc_inv_word(command: Command) -> u64
    requires { is_atc_inv command ≡ true }
    ensures word { result ≡ (encoding command).lo }
    ensures spells { SpellsInLo result command }
    ensures free_bits { AreZero result (free_in_lo command) }
{
    let Command::AtcInv {
        sid,
        ssv,
        ssid,
        global,
        ..
    } = command
    else {
        unreachable!()
    };
    Opcode::AtcInv as u64
        + (u64::from(global) << 9)
        + (u64::from(ssv) << 11)
        + (u64::from(ssid.get()) << 12)
        + stream_word(sid)
}

#[tactic(auto, unfolding(crate::specs::Words::encoding))]
fn sync_word(command: Command) -> u64
    requires { is_sync command ≡ true }
    ensures word { result ≡ (encoding command).lo }
    ensures spells { SpellsInLo result command }
    ensures free_bits { AreZero result (free_in_lo command) }
{
    let Command::CmdSync {
        cs,
        msh,
        attr,
        data,
        ..
    } = command
    else {
        unreachable!()
    };
    Opcode::CmdSync as u64
        + (u64::from(cs.get()) << 12)
        + (u64::from(msh.get()) << 22)
        + (u64::from(attr.get()) << 24)
        + (u64::from(data) << 32)
}

#[tactic(auto, unfolding(crate::specs::Words::encoding))]
fn high_word(command: Command) -> u64
    ensures word { result ≡ (encoding command).hi }
    ensures spells { SpellsInHi result command }
    ensures free_bits { AreZero result (free_in_hi command) }
{
    if let Some(ByAddress { leaf, page, reach }) = command.by_address() {
        return u64::from(leaf) + granule_word(reach) + (page.get() << 12);
    }
    match command {
        Command::CfgiSte { leaf, .. } | Command::CfgiCd { leaf, .. } => u64::from(leaf),
        Command::CfgiSteRange { range, .. } => u64::from(range.get()),
        Command::AtcInv { size, page, .. } => u64::from(size.get()) + (page.get() << 12),
        Command::Kept(kept) => kept.get().hi,
        Command::CmdSync { address, .. } => address.get() << 2,
        _ => 0,
    }
}

fn stream_word(sid: Sid) -> u64
    ensures value { result ≡ sid * 2 ^ 32 }
    ensures in_range { result ≤ 2 ^ 64 - 2 ^ 32 }
{
    u64::from(sid.get()) << 32
}

fn machine_word(vmid: Vmid) -> u64
    ensures value { result ≡ vmid * 2 ^ 32 }
    ensures in_range { result < 2 ^ 48 }
{
    u64::from(vmid.get()) << 32
}

fn space_word(asid: Asid) -> u64
    ensures value { result ≡ asid * 2 ^ 48 }
    ensures in_range { result ≤ 2 ^ 64 - 2 ^ 48 }
{
    u64::from(asid.get()) << 48
}

/// `NUM` and `SCALE`, at their place in lo.
fn steps_word(reach: Reach) -> u64
    ensures value { result ≡ steps_word reach }
    ensures in_range { result < 2 ^ 25 }
{
    match reach {
        Reach::Page => 0,
        Reach::Range { num, scale, .. } => (u64::from(num.get()) << 12)
            + (u64::from(scale.get()) << 20),
    }
}

/// `TG`, at its place in hi.
fn granule_word(reach: Reach) -> u64
    ensures value { result ≡ granule_word reach }
    ensures in_range { result < 2 ^ 12 }
{
    match reach {
        Reach::Page => 0,
        Reach::Range { tg, .. } => u64::from(tg.get()) << 10,
    }
}
