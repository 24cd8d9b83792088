//! One line.
ghost use Rattle.std.specs.Prelude.{◌≡◌, IfOk, IfSome};
ghost use Rattle.cmdcodec.specs.declared.command.Command.{Command};
ghost use Rattle.cmdcodec.specs.Words.{decoding};
ghost use Rattle.line_answers.specs.LineWords.{words_of};
ghost use Rattle.encode.specs.Names.{opcode_called};
ghost use Rattle.encode.specs.LineEncodings.{as_told, line_encoding, named_encoding};

use crate::fault::EncodeFault;
use crate::making::command;
use crate::named::{fields_of, opcode_called};
use crate::value::unknown_word;
use cmdcodec::{Raw, encode};
use line_answers::next_word;
use script::is_comment;

fn encode_named<'a>(name: &'a [u8], rest: &'a [u8]) -> Result<Option<Raw>, EncodeFault<'a>>
    ensures value { as_told result
        ≡ named_encoding (opcode_called name.now) name.now (words_of rest.now) }
    ensures legal { IfOk result (λ found.
        IfSome found (λ raw. (command : Command) × (decoding raw ≡ Ok command))) }
{
    let Some(opcode) = opcode_called(name) else {
        return Err(EncodeFault::UnknownCommand(name));
    };
    if let Some(word) = unknown_word(fields_of(opcode), rest) {
        return Err(EncodeFault::UnknownField(opcode, word));
    }
    match command(opcode, rest) {
        Ok(command) => Ok(Some(encode(&command))),
        Err(fault) => Err(EncodeFault::BadField(opcode, fault)),
    }
}

/// Encodes a line that is the text of a command: its name and its fields, in any order. Returns the command's words,
/// with all free bits 0, or None for a line that is skipped, one without words or a comment.
///
/// Errors: what is wrong with any other line: its name; or else the first word that gives no field of the command; or
/// else the first field, in the order of the command's text, that has no value.
#[tactic(auto, unfolding(crate::specs::LineEncodings::line_encoding))]
pub fn encode_line(line: &[u8]) -> Result<Option<Raw>, EncodeFault<'_>>
    ensures value { as_told result ≡ line_encoding line.now }
    ensures legal { IfOk result (λ found.
        IfSome found (λ raw. (command : Command) × (decoding raw ≡ Ok command))) }
{
    match next_word(line) {
        Some((name, rest)) if !is_comment(name) => encode_named(name, rest),
        _ => Ok(None),
    }
}
