//! What a word means as a command.
ghost use Rattle.std.specs.Prelude.{◌≡◌, IfOk, string_bytes};
ghost use Rattle.cmdcodec.specs.Words.{decoding};
ghost use Rattle.decode.specs.DecodeText.{command_text, bytes_text, decode_text};

use cmdcodec::{Command, Ill, decode, from_bytes, text};
use hex::FromHexError;
use std::alloc::{AllocError, Global};

fn command_text(alloc: Global, decoded: Result<Command, Ill>) -> Result<(String, bool), AllocError>
    ensures { IfOk result (λ told. (string_bytes told.0 ≡ (command_text decoded).0)
        × (told.1 ≡ (command_text decoded).1)) }
{
    match decoded {
        Ok(command) => Ok((text(alloc, &command)?, true)),
        Err(ill) => {
            let label = ill.label();
            Ok((format!(in alloc; "illegal {label}")?, false))
        }
    }
}

fn bytes_text(alloc: Global, bytes: &[u8]) -> Result<(String, bool), AllocError>
    ensures { IfOk result (λ told. (string_bytes told.0 ≡ (bytes_text bytes.now).0)
        × (told.1 ≡ (bytes_text bytes.now).1)) }
{
    match <&[u8; 16]>::try_from(bytes) {
        Ok(bytes) => command_text(alloc, decode(from_bytes(bytes))),
        Err(_) => {
            let count = bytes.len();
            Ok((format!(in alloc; "bad length {count}")?, false))
        }
    }
}

/// Returns what a word of hexadecimal digits means as a command, and whether it is a legal one.
pub fn decode_text(alloc: Global, word: &str) -> Result<(String, bool), AllocError>
    ensures { IfOk result (λ told. (string_bytes told.0 ≡ (decode_text word.now).0)
        × (told.1 ≡ (decode_text word.now).1)) }
{
    decode_bytes(alloc, word.as_bytes())
}

/// The same as `decode_text` for a word whose bytes may be no text.
#[tactic(auto, unfolding(crate::specs::DecodeText::decode_text))]
pub fn decode_bytes(alloc: Global, word: &[u8]) -> Result<(String, bool), AllocError>
    ensures { IfOk result (λ told. (string_bytes told.0 ≡ (decode_text word.now).0)
        × (told.1 ≡ (decode_text word.now).1)) }
{
    match hex::decode(alloc, word) {
        Ok(bytes) => bytes_text(alloc, bytes.as_slice()),
        Err(FromHexError::OutOfMemory) => Err(AllocError),
        Err(
            FromHexError::InvalidHexCharacter { .. }
            | FromHexError::OddLength
            | FromHexError::InvalidStringLength,
        ) => Ok((String::from_str(alloc, "bad hex")?, false)),
    }
}
