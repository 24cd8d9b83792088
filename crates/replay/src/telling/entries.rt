//! The texts of cached entries.
ghost use Rattle.std.specs.Prelude.{◌≡◌, ◌++◌, Some, OnOk, string_bytes};
ghost use Rattle.replay.specs.texts.Entries.{scope_text, substream_text, block_text, tag_text, value_text, entry_line};

use caches::{Entry, Scope, Tag};
use cmdcodec::{Page, Ssid};
use std::alloc::AllocError;
use std::fmt;
use std::fmt::Write;

/// The text of a scope.
#[derive(Clone, Copy)]
struct ScopeText(Scope);

impl fmt::Display for ScopeText {
    ghost output = { λ text. Some (scope_text text.0) };

    fn fmt<W: fmt::Write>(&self, f: &mut fmt::Formatter<W>) -> fmt::Result {
        match self.0 {
            Scope::Global => f.write_str("global"),
            Scope::Of(asid) => write!(f, "asid={}", asid.get()),
        }
    }
}

/// The text of a substream, or of none.
#[derive(Clone, Copy)]
struct SubstreamText(Option<Ssid>);

impl fmt::Display for SubstreamText {
    ghost output = { λ text. Some (substream_text text.0) };

    fn fmt<W: fmt::Write>(&self, f: &mut fmt::Formatter<W>) -> fmt::Result {
        match self.0 {
            None => f.write_str("ssid=none"),
            Some(ssid) => write!(f, "ssid={}", ssid.get()),
        }
    }
}

/// The text of the block of `2^span` pages from this one on.
#[derive(Clone, Copy)]
struct BlockText {
    page: Page,
    span: u8,
}

impl fmt::Display for BlockText {
    ghost output = { λ text. Some (block_text text.page text.span) };

    fn fmt<W: fmt::Write>(&self, f: &mut fmt::Formatter<W>) -> fmt::Result {
        let (page, span) = (self.page.get(), self.span);
        write!(f, " page=0x{page:x} span={span}")
    }
}

/// The text of a tag.
#[derive(Clone, Copy)]
struct TagText(Tag);

impl fmt::Display for TagText {
    ghost output = { λ text. Some (tag_text text.0) };

    fn fmt<W: fmt::Write>(&self, f: &mut fmt::Formatter<W>) -> fmt::Result {
        match self.0 {
            Tag::Ste { sid } => write!(f, "ste sid={}", sid.get()),
            Tag::Cd { sid, ssid } => write!(f, "cd sid={} ssid={}", sid.get(), ssid.get()),
            Tag::S1 {
                vmid,
                scope,
                page,
                span,
            } => {
                let (vmid, scope, block) = (vmid.get(), ScopeText(scope), BlockText { page, span });
                write!(f, "s1 vmid={vmid} {scope}{block}")
            }
            Tag::S2 { vmid, page, span } => {
                let (vmid, block) = (vmid.get(), BlockText { page, span });
                write!(f, "s2 vmid={vmid}{block}")
            }
            Tag::El2 { scope, page, span } => {
                let (scope, block) = (ScopeText(scope), BlockText { page, span });
                write!(f, "el2 {scope}{block}")
            }
            Tag::Atc {
                sid,
                ssid,
                page,
                span,
            } => {
                let (sid, ssid, block) = (sid.get(), SubstreamText(ssid), BlockText { page, span });
                write!(f, "atc sid={sid} {ssid}{block}")
            }
        }
    }
}

/// Appends a name and the value of an entry.
pub(super) fn say_value(name: &str, entry: &Entry, reply: &mut String) -> Result<(), AllocError>
    ensures { OnOk result (string_bytes reply.new
        ≡ string_bytes reply.old ++ (name.now ++ value_text entry.now)) }
{
    let (value, born) = (entry.value, entry.born);
    write!(reply, "{name} value={value} born={born}\n")
}

/// Appends an entry as a line of a dump.
pub(crate) fn say_entry(entry: &Entry, reply: &mut String) -> Result<(), AllocError>
    ensures { OnOk result (string_bytes reply.new
        ≡ string_bytes reply.old ++ entry_line entry.now) }
{
    let tag = TagText(entry.tag);
    write!(reply, "entry {tag}")?;
    say_value("", entry, reply)
}
