//! The command that fields say.
ghost use Rattle.std.specs.Prelude.{◌≡◌, ◌<◌, ◌*◌, ◌^◌, ℕ, Bool, true, MatchOption};
ghost use Rattle.cmdcodec.specs.Fields.{bit};
ghost use Rattle.cmdcodec.specs.Opcodes.{number_of, is_kept};
ghost use Rattle.cmdcodec.specs.declared.command.Command.{Command as CommandOf};
ghost use Rattle.cmdcodec.specs.declared.reach.Reach.{Reach as ReachOf};
ghost use Rattle.smmuq_c.specs.Commands.{SaysMachine, SaysSpace, SaysSubstream, SaysPage, SaysReach, IsCommandOf};

use crate::fields::Fields;
use cmdcodec::{
    Asid, Attr, Command, Cs, Granule, IpaPage, KeptRaw, Msh, MsiWord, Opcode, Page, RangeCount,
    RangeScale, Raw, Reach, Sid, Size, Ssid, StreamRange, Vmid,
};

/// A flag, 0 or 1.
pub(crate) fn flag(word: u32) -> Option<bool>
    ensures { MatchOption result ((b : Bool) → ¬ (word ≡ bit b)) (λ b. word ≡ bit b) }
{
    match word {
        0 => Some(false),
        1 => Some(true),
        _ => None,
    }
}

fn stream(sid: u32) -> Sid
    ensures { result ≡ sid }
{
    Sid::new(u64::from(sid)).unwrap()
}

fn machine(fields: &Fields) -> Option<Vmid>
    ensures { MatchOption result ((vmid : ℕ)
        → ¬ SaysMachine fields.now vmid) (SaysMachine fields.now) }
{
    Vmid::new(u64::from(fields.vmid))
}

fn space(fields: &Fields) -> Option<Asid>
    ensures { MatchOption result ((asid : ℕ) → ¬ SaysSpace fields.now asid) (SaysSpace fields.now) }
{
    Asid::new(u64::from(fields.asid))
}

fn substream(fields: &Fields) -> Option<Ssid>
    ensures { MatchOption result ((ssid : ℕ)
        → ¬ SaysSubstream fields.now ssid) (SaysSubstream fields.now) }
{
    Ssid::new(u64::from(fields.ssid))
}

fn page(fields: &Fields) -> Option<Page>
    ensures { MatchOption result ((page : ℕ)
        → ¬ SaysPage fields.now (2 ^ 52) page) (SaysPage fields.now (2 ^ 52)) }
{
    if fields.address % 4096 != 0 {
        return None;
    }
    Page::new(fields.address >> 12)
}

fn ipa_page(fields: &Fields) -> Option<IpaPage>
    ensures { MatchOption result ((page : ℕ)
        → ¬ SaysPage fields.now (2 ^ 40) page) (SaysPage fields.now (2 ^ 40)) }
{
    if fields.address % 4096 != 0 {
        return None;
    }
    IpaPage::new(fields.address >> 12)
}

fn reach(fields: &Fields) -> Option<Reach>
    ensures { MatchOption result ((reach : ReachOf)
        → ¬ SaysReach fields.now reach) (SaysReach fields.now) }
{
    if fields.tg == 0 {
        return Some(Reach::Page);
    }
    let tg = Granule::new(u64::from(fields.tg))?;
    let num = RangeCount::new(u64::from(fields.num))?;
    let scale = RangeScale::new(u64::from(fields.scale))?;
    Some(Reach::Range { tg, num, scale })
}

fn cfgi_ste(fields: &Fields) -> Option<Command>
    requires { fields.now.opcode ≡ 0x03 }
    ensures { IsCommandOf fields.now result }
{
    let sid = stream(fields.sid);
    let leaf = flag(fields.leaf)?;
    Some(Command::CfgiSte { sid, leaf })
}

fn cfgi_ste_range(fields: &Fields) -> Option<Command>
    requires { fields.now.opcode ≡ 0x04 }
    ensures { IsCommandOf fields.now result }
{
    let sid = stream(fields.sid);
    let range = StreamRange::new(u64::from(fields.size))?;
    Some(Command::CfgiSteRange { sid, range })
}

fn cfgi_cd(fields: &Fields) -> Option<Command>
    requires { fields.now.opcode ≡ 0x05 }
    ensures { IsCommandOf fields.now result }
{
    let sid = stream(fields.sid);
    let ssid = substream(fields)?;
    let leaf = flag(fields.leaf)?;
    Some(Command::CfgiCd { sid, ssid, leaf })
}

fn tlbi_nh_all(fields: &Fields) -> Option<Command>
    requires { fields.now.opcode ≡ 0x10 }
    ensures { IsCommandOf fields.now result }
{
    let vmid = machine(fields)?;
    Some(Command::TlbiNhAll { vmid })
}

fn tlbi_nh_asid(fields: &Fields) -> Option<Command>
    requires { fields.now.opcode ≡ 0x11 }
    ensures { IsCommandOf fields.now result }
{
    let vmid = machine(fields)?;
    let asid = space(fields)?;
    Some(Command::TlbiNhAsid { vmid, asid })
}

fn tlbi_nh_va(fields: &Fields) -> Option<Command>
    requires { fields.now.opcode ≡ 0x12 }
    ensures { IsCommandOf fields.now result }
{
    let vmid = machine(fields)?;
    let asid = space(fields)?;
    let leaf = flag(fields.leaf)?;
    let page = page(fields)?;
    let reach = reach(fields)?;
    Some(Command::TlbiNhVa {
        vmid,
        asid,
        leaf,
        page,
        reach,
    })
}

fn tlbi_nh_vaa(fields: &Fields) -> Option<Command>
    requires { fields.now.opcode ≡ 0x13 }
    ensures { IsCommandOf fields.now result }
{
    let vmid = machine(fields)?;
    let leaf = flag(fields.leaf)?;
    let page = page(fields)?;
    let reach = reach(fields)?;
    Some(Command::TlbiNhVaa {
        vmid,
        leaf,
        page,
        reach,
    })
}

fn tlbi_el2_asid(fields: &Fields) -> Option<Command>
    requires { fields.now.opcode ≡ 0x21 }
    ensures { IsCommandOf fields.now result }
{
    let asid = space(fields)?;
    Some(Command::TlbiEl2Asid { asid })
}

fn tlbi_el2_va(fields: &Fields) -> Option<Command>
    requires { fields.now.opcode ≡ 0x22 }
    ensures { IsCommandOf fields.now result }
{
    let asid = space(fields)?;
    let leaf = flag(fields.leaf)?;
    let page = page(fields)?;
    let reach = reach(fields)?;
    Some(Command::TlbiEl2Va {
        asid,
        leaf,
        page,
        reach,
    })
}

fn tlbi_el2_vaa(fields: &Fields) -> Option<Command>
    requires { fields.now.opcode ≡ 0x23 }
    ensures { IsCommandOf fields.now result }
{
    let leaf = flag(fields.leaf)?;
    let page = page(fields)?;
    let reach = reach(fields)?;
    Some(Command::TlbiEl2Vaa { leaf, page, reach })
}

fn tlbi_s12_vmall(fields: &Fields) -> Option<Command>
    requires { fields.now.opcode ≡ 0x28 }
    ensures { IsCommandOf fields.now result }
{
    let vmid = machine(fields)?;
    Some(Command::TlbiS12Vmall { vmid })
}

fn tlbi_s2_ipa(fields: &Fields) -> Option<Command>
    requires { fields.now.opcode ≡ 0x2a }
    ensures { IsCommandOf fields.now result }
{
    let vmid = machine(fields)?;
    let leaf = flag(fields.leaf)?;
    let page = ipa_page(fields)?;
    let reach = reach(fields)?;
    Some(Command::TlbiS2Ipa {
        vmid,
        leaf,
        page,
        reach,
    })
}

fn atc_inv(fields: &Fields) -> Option<Command>
    requires { fields.now.opcode ≡ 0x40 }
    ensures { IsCommandOf fields.now result }
{
    let sid = stream(fields.sid);
    let ssv = flag(fields.ssv)?;
    let ssid = substream(fields)?;
    let global = flag(fields.global)?;
    let size = Size::new(u64::from(fields.size))?;
    let page = page(fields)?;
    Some(Command::AtcInv {
        sid,
        ssv,
        ssid,
        global,
        size,
        page,
    })
}

fn cmd_sync(fields: &Fields) -> Option<Command>
    requires { fields.now.opcode ≡ 0x46 }
    ensures { IsCommandOf fields.now result }
{
    if fields.address % 4 != 0 {
        return None;
    }
    let cs = Cs::new(u64::from(fields.cs))?;
    let msh = Msh::new(u64::from(fields.msh))?;
    let attr = Attr::new(u64::from(fields.attr))?;
    let address = MsiWord::new(fields.address >> 2)?;
    Some(Command::CmdSync {
        cs,
        msh,
        attr,
        data: fields.data,
        address,
    })
}

fn kept(opcode: Opcode, fields: &Fields) -> Option<Command>
    requires opcode { fields.now.opcode ≡ number_of opcode }
    requires kept { is_kept fields.now.opcode ≡ true }
    ensures { IsCommandOf fields.now result }
{
    let raw = Raw {
        lo: fields.lo,
        hi: fields.hi,
    };
    if raw.opcode() != Some(opcode) {
        return None;
    }
    match KeptRaw::new(raw) {
        Some(kept) => Some(Command::Kept(kept)),
        None => None,
    }
}

/// Returns the command that the fields say, if those that it has are in range.
pub(crate) fn command_of(fields: &Fields) -> Option<Command>
    ensures { IsCommandOf fields.now result }
{
    let opcode = Opcode::new(u64::from(fields.opcode))?;
    match opcode {
        Opcode::CfgiSte => cfgi_ste(fields),
        Opcode::CfgiSteRange => cfgi_ste_range(fields),
        Opcode::CfgiCd => cfgi_cd(fields),
        Opcode::CfgiCdAll => Some(Command::CfgiCdAll {
            sid: stream(fields.sid),
        }),
        Opcode::TlbiNhAll => tlbi_nh_all(fields),
        Opcode::TlbiNhAsid => tlbi_nh_asid(fields),
        Opcode::TlbiNhVa => tlbi_nh_va(fields),
        Opcode::TlbiNhVaa => tlbi_nh_vaa(fields),
        Opcode::TlbiEl2All => Some(Command::TlbiEl2All),
        Opcode::TlbiEl2Asid => tlbi_el2_asid(fields),
        Opcode::TlbiEl2Va => tlbi_el2_va(fields),
        Opcode::TlbiEl2Vaa => tlbi_el2_vaa(fields),
        Opcode::TlbiS12Vmall => tlbi_s12_vmall(fields),
        Opcode::TlbiS2Ipa => tlbi_s2_ipa(fields),
        Opcode::TlbiNsnhAll => Some(Command::TlbiNsnhAll),
        Opcode::AtcInv => atc_inv(fields),
        Opcode::CmdSync => cmd_sync(fields),
        Opcode::PrefetchConfig
        | Opcode::PrefetchAddr
        | Opcode::PriResp
        | Opcode::Resume
        | Opcode::StallTerm => kept(opcode, fields),
    }
}
