//! Making a command of the values that words give its fields.
ghost use Rattle.std.specs.Prelude.{◌≡◌, ◌==◌, true};
ghost use Rattle.line_answers.specs.LineWords.{words_of};
ghost use Rattle.encode.specs.Groups.{is_configuration, is_of_all_pages};
ghost use Rattle.encode.specs.Values.{value_of};
ghost use Rattle.encode.specs.Commands.{command_of, flag_of, kept_of, kept_raw, range_of, reach_of};
ghost use Rattle.cmdcodec.specs.Opcodes.{number_of, opcode_of};
ghost use Rattle.cmdcodec.specs.declared.opcode.Opcode.TheVariants as op;
ghost use Rattle.encode.specs.declared.field.Field.TheVariants as field;

use crate::fault::FieldFault;
use crate::field::Field;
use crate::value::{is_given, value};
use cmdcodec::{
    Asid, Attr, Command, Cs, Granule, IpaPage, KeptRaw, Msh, MsiWord, Opcode, Page, RangeCount,
    RangeScale, Raw, Reach, Sid, Size, Ssid, StreamRange, Vmid,
};

fn sid(text: &[u8]) -> Result<Sid, FieldFault>
    ensures { result ≡ value_of field.Sid (words_of text.now) }
{
    Ok(Sid::new(value(text, Field::Sid)?).unwrap())
}

fn ssid(text: &[u8]) -> Result<Ssid, FieldFault>
    ensures { result ≡ value_of field.Ssid (words_of text.now) }
{
    Ok(Ssid::new(value(text, Field::Ssid)?).unwrap())
}

fn vmid(text: &[u8]) -> Result<Vmid, FieldFault>
    ensures { result ≡ value_of field.Vmid (words_of text.now) }
{
    Ok(Vmid::new(value(text, Field::Vmid)?).unwrap())
}

fn asid(text: &[u8]) -> Result<Asid, FieldFault>
    ensures { result ≡ value_of field.Asid (words_of text.now) }
{
    Ok(Asid::new(value(text, Field::Asid)?).unwrap())
}

fn page(text: &[u8]) -> Result<Page, FieldFault>
    ensures { result ≡ value_of field.Page (words_of text.now) }
{
    Ok(Page::new(value(text, Field::Page)?).unwrap())
}

/// Parses a field of one bit.
#[tactic(auto, unfolding(crate::specs::Commands::flag_of))]
fn flag(text: &[u8], field: Field) -> Result<bool, FieldFault>
    ensures { result ≡ flag_of field (words_of text.now) }
{
    Ok(value(text, field)? == 1)
}

fn range(text: &[u8]) -> Result<Reach, FieldFault>
    ensures { result ≡ range_of (words_of text.now) }
{
    let tg = Granule::new(value(text, Field::Tg)?).unwrap();
    let num = RangeCount::new(value(text, Field::Num)?).unwrap();
    let scale = RangeScale::new(value(text, Field::Scale)?).unwrap();
    Ok(Reach::Range { tg, num, scale })
}

/// Parses how far an invalidation by address reaches.
#[tactic(auto, unfolding(crate::specs::Commands::reach_of))]
fn reach(text: &[u8]) -> Result<Reach, FieldFault>
    ensures { result ≡ reach_of (words_of text.now) }
{
    let has_range = is_given(text, Field::Tg)
        || is_given(text, Field::Num)
        || is_given(text, Field::Scale);
    if has_range {
        range(text)
    } else {
        Ok(Reach::Page)
    }
}

#[tactic(auto, unfolding(crate::specs::Commands::command_of))]
fn configuration(opcode: Opcode, text: &[u8]) -> Result<Command, FieldFault>
    requires { is_configuration opcode ≡ true }
    ensures { result ≡ command_of opcode (words_of text.now) }
{
    match opcode {
        Opcode::CfgiSte => {
            let sid = sid(text)?;
            let leaf = flag(text, Field::Leaf)?;
            Ok(Command::CfgiSte { sid, leaf })
        }
        Opcode::CfgiSteRange => {
            let sid = sid(text)?;
            let range = StreamRange::new(value(text, Field::Range)?).unwrap();
            Ok(Command::CfgiSteRange { sid, range })
        }
        Opcode::CfgiCd => {
            let sid = sid(text)?;
            let ssid = ssid(text)?;
            let leaf = flag(text, Field::Leaf)?;
            Ok(Command::CfgiCd { sid, ssid, leaf })
        }
        Opcode::CfgiCdAll => Ok(Command::CfgiCdAll { sid: sid(text)? }),
        _ => unreachable!(),
    }
}

#[tactic(auto, unfolding(crate::specs::Commands::command_of))]
fn of_all_pages(opcode: Opcode, text: &[u8]) -> Result<Command, FieldFault>
    requires { is_of_all_pages opcode ≡ true }
    ensures { result ≡ command_of opcode (words_of text.now) }
{
    match opcode {
        Opcode::TlbiNhAll => Ok(Command::TlbiNhAll { vmid: vmid(text)? }),
        Opcode::TlbiNhAsid => {
            let vmid = vmid(text)?;
            let asid = asid(text)?;
            Ok(Command::TlbiNhAsid { vmid, asid })
        }
        Opcode::TlbiEl2All => Ok(Command::TlbiEl2All),
        Opcode::TlbiEl2Asid => Ok(Command::TlbiEl2Asid { asid: asid(text)? }),
        Opcode::TlbiS12Vmall => Ok(Command::TlbiS12Vmall { vmid: vmid(text)? }),
        Opcode::TlbiNsnhAll => Ok(Command::TlbiNsnhAll),
        _ => unreachable!(),
    }
}

#[tactic(auto, unfolding(crate::specs::Commands::command_of))]
fn tlbi_nh_va(text: &[u8]) -> Result<Command, FieldFault>
    ensures { result ≡ command_of op.TlbiNhVa (words_of text.now) }
{
    let vmid = vmid(text)?;
    let asid = asid(text)?;
    let leaf = flag(text, Field::Leaf)?;
    let page = page(text)?;
    let reach = reach(text)?;
    Ok(Command::TlbiNhVa {
        vmid,
        asid,
        leaf,
        page,
        reach,
    })
}

#[tactic(auto, unfolding(crate::specs::Commands::command_of))]
fn tlbi_nh_vaa(text: &[u8]) -> Result<Command, FieldFault>
    ensures { result ≡ command_of op.TlbiNhVaa (words_of text.now) }
{
    let vmid = vmid(text)?;
    let leaf = flag(text, Field::Leaf)?;
    let page = page(text)?;
    let reach = reach(text)?;
    Ok(Command::TlbiNhVaa {
        vmid,
        leaf,
        page,
        reach,
    })
}

#[tactic(auto, unfolding(crate::specs::Commands::command_of))]
fn tlbi_el2_va(text: &[u8]) -> Result<Command, FieldFault>
    ensures { result ≡ command_of op.TlbiEl2Va (words_of text.now) }
{
    let asid = asid(text)?;
    let leaf = flag(text, Field::Leaf)?;
    let page = page(text)?;
    let reach = reach(text)?;
    Ok(Command::TlbiEl2Va {
        asid,
        leaf,
        page,
        reach,
    })
}

#[tactic(auto, unfolding(crate::specs::Commands::command_of))]
fn tlbi_el2_vaa(text: &[u8]) -> Result<Command, FieldFault>
    ensures { result ≡ command_of op.TlbiEl2Vaa (words_of text.now) }
{
    let leaf = flag(text, Field::Leaf)?;
    let page = page(text)?;
    let reach = reach(text)?;
    Ok(Command::TlbiEl2Vaa { leaf, page, reach })
}

#[tactic(auto, unfolding(crate::specs::Commands::command_of))]
fn tlbi_s2_ipa(text: &[u8]) -> Result<Command, FieldFault>
    ensures { result ≡ command_of op.TlbiS2Ipa (words_of text.now) }
{
    let vmid = vmid(text)?;
    let leaf = flag(text, Field::Leaf)?;
    let page = IpaPage::new(value(text, Field::IpaPage)?).unwrap();
    let reach = reach(text)?;
    Ok(Command::TlbiS2Ipa {
        vmid,
        leaf,
        page,
        reach,
    })
}

#[tactic(auto, unfolding(crate::specs::Commands::command_of))]
fn atc_inv(text: &[u8]) -> Result<Command, FieldFault>
    ensures { result ≡ command_of op.AtcInv (words_of text.now) }
{
    let sid = sid(text)?;
    let ssv = flag(text, Field::Ssv)?;
    let ssid = ssid(text)?;
    let global = flag(text, Field::Global)?;
    let size = Size::new(value(text, Field::Size)?).unwrap();
    let page = page(text)?;
    Ok(Command::AtcInv {
        sid,
        ssv,
        ssid,
        global,
        size,
        page,
    })
}

#[tactic(auto, unfolding(crate::specs::Commands::command_of))]
fn sync(text: &[u8]) -> Result<Command, FieldFault>
    ensures { result ≡ command_of op.CmdSync (words_of text.now) }
{
    let cs = Cs::new(value(text, Field::Cs)?).unwrap();
    let msh = Msh::new(value(text, Field::Msh)?).unwrap();
    let attr = Attr::new(value(text, Field::Attr)?).unwrap();
    let data = value(text, Field::Data)? as u32;
    let address = MsiWord::new(value(text, Field::MsiWord)?).unwrap();
    Ok(Command::CmdSync {
        cs,
        msh,
        attr,
        data,
        address,
    })
}

fn has_opcode(raw: Raw, opcode: Opcode) -> bool
    ensures { result ≡ (opcode_of raw == number_of opcode) }
{
    raw.lo % 256 == opcode as u64
}

fn kept_raw(opcode: Opcode, raw: Raw) -> Result<Command, FieldFault>
    ensures { result ≡ kept_raw opcode raw }
{
    match KeptRaw::new(raw) {
        Some(kept) if has_opcode(raw, opcode) => Ok(Command::Kept(kept)),
        _ => Err(FieldFault::OtherCommand),
    }
}

#[tactic(auto, unfolding(crate::specs::Commands::kept_of))]
fn kept(opcode: Opcode, text: &[u8]) -> Result<Command, FieldFault>
    ensures { result ≡ kept_of opcode (words_of text.now) }
{
    let lo = value(text, Field::Lo)?;
    let hi = value(text, Field::Hi)?;
    kept_raw(opcode, Raw { lo, hi })
}

/// Returns the command of this opcode, with the values that the words of a text give its fields, or what is wrong with
/// the first of its fields that has no value.
#[tactic(auto, unfolding(crate::specs::Commands::command_of))]
pub(crate) fn command(opcode: Opcode, text: &[u8]) -> Result<Command, FieldFault>
    ensures { result ≡ command_of opcode (words_of text.now) }
{
    match opcode {
        Opcode::CfgiSte | Opcode::CfgiSteRange | Opcode::CfgiCd | Opcode::CfgiCdAll => {
            configuration(opcode, text)
        }
        Opcode::TlbiNhVa => tlbi_nh_va(text),
        Opcode::TlbiNhVaa => tlbi_nh_vaa(text),
        Opcode::TlbiEl2Va => tlbi_el2_va(text),
        Opcode::TlbiEl2Vaa => tlbi_el2_vaa(text),
        Opcode::TlbiS2Ipa => tlbi_s2_ipa(text),
        Opcode::AtcInv => atc_inv(text),
        Opcode::CmdSync => sync(text),
        Opcode::PrefetchConfig
        | Opcode::PrefetchAddr
        | Opcode::PriResp
        | Opcode::Resume
        | Opcode::StallTerm => kept(opcode, text),
        _ => of_all_pages(opcode, text),
    }
}
