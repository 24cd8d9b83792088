//! Tags, entries and commands as words of a text. A number is decimal, or hexadecimal after `0x`.
//!
//! A tag is one of `ste SID`, `cd SID SSID`, `s1 VMID SCOPE PAGE SPAN`, `s2 VMID PAGE SPAN`,
//! `el2 SCOPE PAGE SPAN` and `atc SID SSID PAGE SPAN`, where SCOPE is an ASID or `g` for all address spaces, and
//! the SSID of an `atc` may be `-` for none. An entry is a tag, its value and its birth.
//!
//! An address space is one of `s1 VMID ASID`, `s2 VMID`, `el2 ASID` and `atc SID SSID`. What is looked up is an address
//! space, a page and a mask of spans.
use caches::{AddressSpace, Entry, Scope, Tag};
use cmdcodec::{Asid, Command, Page, Raw, Sid, Ssid, Vmid, decode, text};
use std::alloc::Global;
use std::str::SplitWhitespace;

fn number(word: &str) -> Option<u64> {
    match word.strip_prefix("0x") {
        Some(digits) => u64::from_str_radix(digits, 16).ok(),
        None => word.parse().ok(),
    }
}

fn next_number(words: &mut SplitWhitespace<'_>) -> Option<u64> {
    number(words.next()?)
}

fn next_sid(words: &mut SplitWhitespace<'_>) -> Option<Sid> {
    Sid::new(next_number(words)?)
}

fn next_vmid(words: &mut SplitWhitespace<'_>) -> Option<Vmid> {
    Vmid::new(next_number(words)?)
}

fn next_scope(words: &mut SplitWhitespace<'_>) -> Option<Scope> {
    let word = words.next()?;
    if word == "g" {
        return Some(Scope::Global);
    }
    Some(Scope::Of(Asid::new(number(word)?)?))
}

fn next_substream(words: &mut SplitWhitespace<'_>) -> Option<Option<Ssid>> {
    let word = words.next()?;
    if word == "-" {
        return Some(None);
    }
    Some(Some(Ssid::new(number(word)?)?))
}

/// Parses a page, and how many pages a block has, as a power of 2.
fn next_block(words: &mut SplitWhitespace<'_>) -> Option<(Page, u8)> {
    let page = Page::new(next_number(words)?)?;
    let span = u8::try_from(next_number(words)?).ok()?;
    Some((page, span))
}

fn next_stage_1(words: &mut SplitWhitespace<'_>) -> Option<Tag> {
    let vmid = next_vmid(words)?;
    let scope = next_scope(words)?;
    let (page, span) = next_block(words)?;
    Some(Tag::S1 {
        vmid,
        scope,
        page,
        span,
    })
}

fn next_stage_2(words: &mut SplitWhitespace<'_>) -> Option<Tag> {
    let vmid = next_vmid(words)?;
    let (page, span) = next_block(words)?;
    Some(Tag::S2 { vmid, page, span })
}

fn next_el2(words: &mut SplitWhitespace<'_>) -> Option<Tag> {
    let scope = next_scope(words)?;
    let (page, span) = next_block(words)?;
    Some(Tag::El2 { scope, page, span })
}

fn next_atc(words: &mut SplitWhitespace<'_>) -> Option<Tag> {
    let sid = next_sid(words)?;
    let ssid = next_substream(words)?;
    let (page, span) = next_block(words)?;
    Some(Tag::Atc {
        sid,
        ssid,
        page,
        span,
    })
}

fn next_cd(words: &mut SplitWhitespace<'_>) -> Option<Tag> {
    let sid = next_sid(words)?;
    let ssid = Ssid::new(next_number(words)?)?;
    Some(Tag::Cd { sid, ssid })
}

fn next_tag(words: &mut SplitWhitespace<'_>) -> Option<Tag> {
    match words.next()? {
        "ste" => Some(Tag::Ste {
            sid: next_sid(words)?,
        }),
        "cd" => next_cd(words),
        "s1" => next_stage_1(words),
        "s2" => next_stage_2(words),
        "el2" => next_el2(words),
        "atc" => next_atc(words),
        _ => None,
    }
}

fn next_space(words: &mut SplitWhitespace<'_>) -> Option<AddressSpace> {
    match words.next()? {
        "s1" => {
            let vmid = next_vmid(words)?;
            let asid = Asid::new(next_number(words)?)?;
            Some(AddressSpace::S1 { vmid, asid })
        }
        "s2" => Some(AddressSpace::S2 {
            vmid: next_vmid(words)?,
        }),
        "el2" => Some(AddressSpace::El2 {
            asid: Asid::new(next_number(words)?)?,
        }),
        "atc" => {
            let sid = next_sid(words)?;
            let ssid = next_substream(words)?;
            Some(AddressSpace::Atc { sid, ssid })
        }
        _ => None,
    }
}

/// What is looked up by address.
#[derive(Clone, Copy)]
pub struct Asked {
    pub space: AddressSpace,
    pub page: Page,
    pub spans: u64,
}

/// Parses a text as what is looked up.
pub fn sought(text: &str) -> Option<Asked> {
    let mut words = text.split_whitespace();
    Some(Asked {
        space: next_space(&mut words)?,
        page: Page::new(next_number(&mut words)?)?,
        spans: next_number(&mut words)?,
    })
}

/// Parses a text as a tag.
pub fn tag(text: &str) -> Option<Tag> {
    let mut words = text.split_whitespace();
    next_tag(&mut words)
}

/// Parses the next words as an entry.
pub fn next_entry(words: &mut SplitWhitespace<'_>) -> Option<Entry> {
    Some(Entry {
        tag: next_tag(words)?,
        value: next_number(words)?,
        born: next_number(words)?,
    })
}

/// Parses a text as an entry.
pub fn entry(text: &str) -> Option<Entry> {
    let mut words = text.split_whitespace();
    next_entry(&mut words)
}

/// An entry of this tag.
pub fn entry_of(tag: Tag) -> Entry {
    Entry {
        tag,
        value: 7,
        born: 3,
    }
}

/// An entry for a stream table entry.
pub fn ste(stream: u32) -> Entry {
    let sid = Sid::new(u64::from(stream)).unwrap();
    entry_of(Tag::Ste { sid })
}

/// An entry for a context descriptor of substream 1.
pub fn cd(stream: u32) -> Entry {
    let sid = Sid::new(u64::from(stream)).unwrap();
    let ssid = Ssid::new(1).unwrap();
    entry_of(Tag::Cd { sid, ssid })
}

/// Parses a command given by its two words, lo and hi, and then again by its text.
pub fn command(alloc: Global, words: &str) -> Option<Command> {
    let (lo, rest) = words.split_once(" ")?;
    let (hi, name) = rest.split_once(" ")?;
    let raw = Raw {
        lo: number(lo)?,
        hi: number(hi)?,
    };
    let command = decode(raw).ok()?;
    if text(alloc, &command).ok()?.as_str() == name {
        Some(command)
    } else {
        None
    }
}
