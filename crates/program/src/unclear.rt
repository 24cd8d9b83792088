//! Command lines without a fault of which it isn't clear what they ask for.
ghost use Rattle.std.specs.Prelude.{◌≡◌, ◌||◌};
ghost use Rattle.script.specs.Words.{words_of};
ghost use Rattle.program.specs.Unclear.{has_leading_zero, has_unclear_number, image_unclear, is_given_unclear, is_one_given, is_register_unclear, is_whose_clear, is_zero_led, range_unclear, unclear_line, unclear_of, unclear_text, words_unclear};
ghost use Rattle.program.specs.Watching.{TellsWith};

use crate::telling::tell_fault;
use crate::watched::Watched;
use command_line::{ImageArguments, RangeArguments, Subcommand, WordsArguments};
use script::next_word;
use std::io::Write;

/// Why it isn't clear what a command line asks for.
#[derive(Clone, Copy, Debug, PartialEq, Eq)]
pub(crate) enum Unclear {
    /// A register's decimal digits begin with 0, so that they may be hexadecimal ones without their 0x.
    LeadingZero,
    /// One error register is given without the other.
    OneErrorRegister,
    /// Lines can't be a kernel's log and a hex dump.
    TwoForms,
    /// A number of a range begins with 0, as a register may.
    LeadingZeroOfNumber,
    /// It isn't said whose translations a range is of, or it is said twice.
    Whose,
    /// A level is given, but not that only last-level entries changed.
    LevelWithoutLeaf,
}

/// Whether a word is two decimal digits or more, of which the first is 0.
fn is_zero_led(word: &[u8]) -> bool
    ensures { result ≡ is_zero_led word.now }
{
    word.len() >= 2 && word[0] == b'0' && (b'0' <= word[1] && word[1] <= b'9')
}

/// Whether the first word of a text is such a word.
fn is_register_unclear(text: &str) -> bool
    ensures { result ≡ is_register_unclear text.now }
{
    match next_word(text.as_bytes()) {
        Some((word, _)) => is_zero_led(word),
        None => false,
    }
}

fn is_given_unclear(text: Option<&str>) -> bool
    ensures { result ≡ is_given_unclear text.entry }
{
    match text {
        Some(text) => is_register_unclear(text),
        None => false,
    }
}

fn has_leading_zero(arguments: &ImageArguments<'_>) -> bool
    ensures { result ≡ has_leading_zero arguments.now }
{
    is_register_unclear(arguments.prod)
        || is_register_unclear(arguments.cons)
        || is_given_unclear(arguments.gerror)
        || is_given_unclear(arguments.gerrorn)
}

fn is_one_given(gerror: Option<&str>, gerrorn: Option<&str>) -> bool
    ensures { result ≡ is_one_given gerror.entry gerrorn.entry }
{
    match (gerror, gerrorn) {
        (None, Some(_)) | (Some(_), None) => true,
        (None, None) | (Some(_), Some(_)) => false,
    }
}

fn image_unclear(arguments: &ImageArguments<'_>) -> Option<Unclear>
    ensures { result ≡ image_unclear arguments.now }
{
    if has_leading_zero(arguments) {
        Some(Unclear::LeadingZero)
    } else if is_one_given(arguments.gerror, arguments.gerrorn) {
        Some(Unclear::OneErrorRegister)
    } else {
        None
    }
}

fn words_unclear(arguments: &WordsArguments) -> Option<Unclear>
    ensures { result ≡ words_unclear arguments.now }
{
    if arguments.log && arguments.hex {
        Some(Unclear::TwoForms)
    } else {
        None
    }
}

fn has_unclear_number(arguments: &RangeArguments<'_>) -> bool
    ensures { result ≡ has_unclear_number arguments.now }
{
    is_given_unclear(arguments.vmid)
        || is_given_unclear(arguments.asid)
        || is_register_unclear(arguments.address)
        || is_register_unclear(arguments.length)
}

/// Whether it is said whose translations a range is of.
fn is_whose_clear(arguments: &RangeArguments<'_>) -> bool
    ensures { result
        ≡ is_whose_clear arguments.now.el2 arguments.now.stage2 arguments.now.vmid
        arguments.now.asid }
{
    match (arguments.el2, arguments.stage2) {
        (true, true) => false,
        (true, false) => arguments.vmid.is_none(),
        (false, true) => arguments.vmid.is_some() && arguments.asid.is_none(),
        (false, false) => arguments.vmid.is_some(),
    }
}

fn range_unclear(arguments: &RangeArguments<'_>) -> Option<Unclear>
    ensures { result ≡ range_unclear arguments.now }
{
    if has_unclear_number(arguments) {
        Some(Unclear::LeadingZeroOfNumber)
    } else if !is_whose_clear(arguments) {
        Some(Unclear::Whose)
    } else if arguments.level.is_some() && !arguments.leaf {
        Some(Unclear::LevelWithoutLeaf)
    } else {
        None
    }
}

/// Returns why it isn't clear what is asked for, if it isn't.
pub(crate) fn unclear_of(subcommand: &Subcommand<'_>) -> Option<Unclear>
    ensures { result ≡ unclear_of subcommand.now }
{
    match subcommand {
        Subcommand::Image(arguments) => image_unclear(arguments),
        Subcommand::Words(arguments) => words_unclear(arguments),
        Subcommand::Range(arguments) => range_unclear(arguments),
        _ => None,
    }
}

fn unclear_text(unclear: Unclear) -> &'static str
    ensures { result.now ≡ unclear_text unclear }
{
    match unclear {
        Unclear::LeadingZero =>
            "error: a register is decimal digits without a leading 0, or 0x and hexadecimal digits: write 98 or 0x98 for 098",
        Unclear::OneErrorRegister =>
            "error: --gerror and --gerrorn are given together or not at all",
        Unclear::TwoForms => "error: --log and --hex aren't given together",
        Unclear::LeadingZeroOfNumber =>
            "error: a number is decimal digits without a leading 0, or 0x and hexadecimal digits: write 98 or 0x98 for 098",
        Unclear::Whose =>
            "error: a range is of --vmid V, of --el2, or of --stage2 --vmid V; --asid A goes with the first two",
        Unclear::LevelWithoutLeaf => "error: --level is given with --leaf",
    }
}

/// Tells why it isn't clear what is asked for, and returns the exit status.
pub(crate) fn tell_unclear<W: Write>(unclear: Unclear, faults: &mut Watched<W>) -> u8
    ensures { TellsWith 2 (unclear_line unclear) result faults.old faults.new }
{
    tell_fault(unclear_text(unclear), faults)
}
