//! The text of a command.
ghost use Rattle.std.specs.Prelude.{◌≡◌, true, Some, IfOk, string_bytes};
ghost use Rattle.std.specs.Fmt.{DisplaysOnOk};
ghost use Rattle.cmdcodec.specs.Text.{text_of};
ghost use Rattle.cmdcodec.specs.Groups.{is_configuration, is_atc_inv, is_sync};

mod parts;
mod translations;

use crate::command::Command;
use parts::{Signal, leaf_text};
use std::alloc::{AllocError, Global};
use std::fmt;
use translations::{write_by_address, write_translations};

/// Returns the text of a command, on one line, or `AllocError` if memory runs out.
pub fn text(alloc: Global, command: &Command) -> Result<String, AllocError>
    ensures { IfOk result (λ text. string_bytes text ≡ text_of command.now) }
{
    command.to_string(alloc)
}

impl fmt::Display for Command {
    ghost output = { λ command. Some (text_of command) };

    #[tactic(auto, unfolding(crate::specs::Text::text_of))]
    fn fmt<W: fmt::Write>(&self, f: &mut fmt::Formatter<W>) -> fmt::Result {
        if let Some(pages) = self.by_address() {
            return write_by_address(self, pages, f);
        }
        match *self {
            Command::CfgiSte { .. }
            | Command::CfgiSteRange { .. }
            | Command::CfgiCd { .. }
            | Command::CfgiCdAll { .. } => write_configuration(self, f),
            Command::AtcInv { .. } => write_atc_inv(self, f),
            Command::Kept(kept) => write!(f, "{kept}"),
            Command::CmdSync { .. } => write_sync(self, f),
            _ => write_translations(self, f),
        }
    }
}

/// The same text as `{}`. A derived one takes a fifteenth of the time of the crate's check.
impl fmt::Debug for Command {
    ghost debug_output = { λ command. Some (text_of command) };

    fn fmt<W: fmt::Write>(&self, f: &mut fmt::Formatter<W>) -> fmt::Result {
        fmt::Display::fmt(self, f)
    }
}

#[tactic(auto, unfolding(crate::specs::Text::text_of))]
fn write_configuration<W: fmt::Write>(command: &Command, f: &mut fmt::Formatter<W>) -> fmt::Result
    requires { is_configuration command.now ≡ true }
    ensures { DisplaysOnOk W.write_str_gives f.old result (Some (text_of command.now)) f.new }
{
    match *command {
        Command::CfgiSte { sid, leaf } => {
            let (sid, leaf) = (sid.get(), leaf_text(leaf));
            write!(f, "CFGI_STE sid={sid}{leaf}")
        }
        Command::CfgiSteRange { sid, range } => {
            let (sid, range) = (sid.get(), range.get());
            write!(f, "CFGI_STE_RANGE sid={sid} range={range}")
        }
        Command::CfgiCd { sid, ssid, leaf } => {
            let (sid, ssid, leaf) = (sid.get(), ssid.get(), leaf_text(leaf));
            write!(f, "CFGI_CD sid={sid} ssid={ssid}{leaf}")
        }
        Command::CfgiCdAll { sid } => write!(f, "CFGI_CD_ALL sid={}", sid.get()),
        _ => unreachable!(),
    }
}

#[tactic(auto, unfolding(crate::specs::Text::text_of))]
fn write_atc_inv<W: fmt::Write>(command: &Command, f: &mut fmt::Formatter<W>) -> fmt::Result
    requires { is_atc_inv command.now ≡ true }
    ensures { DisplaysOnOk W.write_str_gives f.old result (Some (text_of command.now)) f.new }
{
    let Command::AtcInv {
        sid,
        ssv,
        ssid,
        global,
        size,
        page,
    } = *command
    else {
        unreachable!()
    };
    let (sid, ssv, ssid) = (sid.get(), u8::from(ssv), ssid.get());
    write!(f, "ATC_INV sid={sid} ssv={ssv} ssid={ssid}")?;
    let (global, size, address) = (u8::from(global), size.get(), page.get() * 4096);
    write!(f, " global={global} size={size} addr=0x{address:x}")
}

#[tactic(auto, unfolding(crate::specs::Text::text_of))]
fn write_sync<W: fmt::Write>(command: &Command, f: &mut fmt::Formatter<W>) -> fmt::Result
    requires { is_sync command.now ≡ true }
    ensures { DisplaysOnOk W.write_str_gives f.old result (Some (text_of command.now)) f.new }
{
    let Command::CmdSync {
        cs,
        msh,
        attr,
        data,
        address,
    } = *command
    else {
        unreachable!()
    };
    let (signal, address) = (Signal { cs, msh, attr }, address.get() * 4);
    write!(f, "{signal} data={data} addr=0x{address:x}")
}
