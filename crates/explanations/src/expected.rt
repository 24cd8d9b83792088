//! What a word of a line has to be.
use crate::replay_forms::tag_words;
use script::{number, raw};
use std::fmt;

/// What a word of a line has to be.
#[derive(Clone, Copy)]
pub(crate) enum Expected {
    /// The name of a line.
    Name,
    /// A number from the first to the second.
    Number(u64, u64),
    /// An address space of 16 bits, or `g` for all of them.
    Scope,
    /// A substream of 20 bits, or `-` for none.
    Substream,
    /// A sender, or `c` for the consumer.
    Looker,
    /// The 16 bytes of a command.
    Command,
    /// The kind of a tag.
    TagKind,
    /// What is done with the command that stopped the queue.
    Remedy,
    /// No word.
    End,
}

pub(crate) const EIGHT_BITS: Expected = Expected::Number(0, 0xff);

pub(crate) const SIXTEEN_BITS: Expected = Expected::Number(0, 0xffff);

pub(crate) const TWENTY_BITS: Expected = Expected::Number(0, 0xf_ffff);

pub(crate) const THIRTY_TWO_BITS: Expected = Expected::Number(0, 0xffff_ffff);

pub(crate) const FIFTY_TWO_BITS: Expected = Expected::Number(0, 0xf_ffff_ffff_ffff);

pub(crate) const SIXTY_FOUR_BITS: Expected = Expected::Number(0, u64::MAX);

/// Whether a word is a number from `least` to `most`.
fn is_number(least: u64, most: u64, word: &[u8]) -> bool {
    match number(word) {
        Some(said) => least <= said && said <= most,
        None => false,
    }
}

/// Whether a word is this mark, or a number from 0 to `most`.
fn is_mark_or_number(mark: &[u8], most: u64, word: &[u8]) -> bool {
    word == mark || is_number(0, most, word)
}

fn is_remedy(word: &[u8]) -> bool {
    word == b"retry".as_slice() || word == b"replace".as_slice()
}

impl Expected {
    /// Whether a word is as expected. An empty word stands for none.
    pub(crate) fn is_met_by(self, word: &[u8]) -> bool {
        match self {
            Expected::Name => !word.is_empty(),
            Expected::Number(least, most) => is_number(least, most, word),
            Expected::Scope => is_mark_or_number(b"g", 0xffff, word),
            Expected::Substream => is_mark_or_number(b"-", 0xf_ffff, word),
            Expected::Looker => is_mark_or_number(b"c", 0xffff_ffff, word),
            Expected::Command => raw(word).is_some(),
            Expected::TagKind => tag_words(word).is_some(),
            Expected::Remedy => is_remedy(word),
            Expected::End => word.is_empty(),
        }
    }
}

impl fmt::Display for Expected {
    fn fmt<W: fmt::Write>(&self, f: &mut fmt::Formatter<W>) -> fmt::Result {
        match *self {
            Expected::Name => f.write_str("the name of a line"),
            Expected::Number(least, most) => write!(f, "a number from {least} to {most}"),
            Expected::Scope => f.write_str("a number from 0 to 65535, or g,"),
            Expected::Substream => f.write_str("a number from 0 to 1048575, or -,"),
            Expected::Looker => f.write_str("a number from 0 to 4294967295, or c,"),
            Expected::Command => f.write_str("a command of 32 hexadecimal digits"),
            Expected::TagKind => f.write_str("ste, cd, s1, s2, el2 or atc"),
            Expected::Remedy => f.write_str("retry or replace"),
            Expected::End => f.write_str("nothing more"),
        }
    }
}
