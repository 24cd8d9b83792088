//! The exports of the codec: words to fields and back, and texts.
ghost use Rattle.std.specs.Prelude.{◌≡◌};
ghost use Rattle.cmdcodec.specs.Words.{decoding};
ghost use Rattle.smmuq_c.specs.Statuses.{number_of};
ghost use Rattle.smmuq_c.specs.Calls.{Answers};
ghost use Rattle.smmu_features.specs.IdRegisters.{smmu_of};
ghost use Rattle.smmu_features.specs.Commands.{first_ill_for};
ghost use Rattle.smmuq_c.specs.Commands.{decode_status, check_status, HasDecoded, HasDecodedHint};
ghost use Rattle.smmuq_c.specs.Commands.{IsHintOf, HasEncoded};
ghost use Rattle.smmuq_c.specs.Texts.{HasTold, IsCopied};
ghost use Rattle.smmuq_c.specs.Kept.{CountKept, IsCountKept, IsKept, KeptUnlessDone};

use crate::fields::{Fields, command_of};
use crate::status::Status;
use cmdcodec::{Command, Ill, Raw, decode, legal_words_spell_one_command, text};
use range_hints::{Ttl, decode_with_hint, encode_with_hint, has_ttl};
use smmu_features::Smmu;
use std::alloc::Global;

/// The version of this interface.
#[unsafe(no_mangle)]
pub extern "C" fn smmuq_version() -> u32
    ensures { result ≡ 6 }
{
    6
}

fn decode_status(decoded: Result<Command, Ill>) -> Status
    ensures { result ≡ decode_status decoded }
{
    match decoded {
        Ok(_) => Status::Done,
        Err(ill) => Status::Illegal(ill),
    }
}

/// Returns 0 if the words are legal, else the number of the first fault in them, 1 to 4.
#[unsafe(no_mangle)]
pub extern "C" fn smmuq_check(lo: u64, hi: u64) -> u32
    ensures { result ≡ number_of (decode_status (decoding (record { lo = lo; hi = hi }))) }
{
    decode_status(decode(Raw { lo, hi })).number()
}

fn check_status(ill: Option<Ill>) -> Status
    ensures { result ≡ check_status ill }
{
    match ill {
        None => Status::Done,
        Some(ill) => Status::Illegal(ill),
    }
}

/// Returns 0 if the words are legal for an SMMU with these ID registers, else the number of the first fault in them, 1 to
/// 4. A command that it doesn't have is one with an unknown opcode.
#[unsafe(no_mangle)]
pub extern "C" fn smmuq_check_for(
    idr0: u32,
    idr1: u32,
    idr3: u32,
    idr5: u32,
    lo: u64,
    hi: u64,
) -> u32
    ensures { result ≡ number_of (check_status
        (first_ill_for (smmu_of idr0 idr1 idr3 idr5) (record { lo = lo; hi = hi }))) }
{
    let smmu = Smmu::from_registers(idr0, idr1, idr3, idr5);
    check_status(smmu.judge(Raw { lo, hi })).number()
}

/// The same, and writes the fields of legal words.
#[unsafe(no_mangle)]
pub extern "C" fn smmuq_decode(lo: u64, hi: u64, fields: &mut Fields) -> u32
    ensures status { result ≡ number_of (decode_status (decoding (record { lo = lo; hi = hi }))) }
    ensures fields { HasDecoded (decoding (record { lo = lo; hi = hi })) fields.old fields.new }
    ensures hint { HasDecodedHint (record { lo = lo; hi = hi }) fields.new }
{
    legal_words_spell_one_command();
    match decode_with_hint(Raw { lo, hi }) {
        Ok((command, ttl)) => {
            *fields = Fields::with_hint(command, ttl);
            Status::Done.number()
        }
        Err(ill) => Status::Illegal(ill).number(),
    }
}

/// Writes the words of the command that the fields say, all reserved bits 0. Fields that it doesn't have are ignored.
/// `BAD_FIELD` if they say none.
#[unsafe(no_mangle)]
pub extern "C" fn smmuq_encode(fields: &Fields, words: &mut Raw) -> u32
    ensures answered { Answers (HasEncoded fields.now words.old words.new) result }
    ensures kept { KeptUnlessDone result words.old words.new }
{
    let fields = Fields::read(fields);
    encode_fields(&fields, words).number()
}

/// The level hint that the fields say, if the command has a place for one.
fn hint_of(fields: &Fields, command: &Command) -> Option<Ttl>
    ensures { IsHintOf fields.now command.now result }
{
    if !has_ttl(command) {
        return Some(Ttl::AnyLevel);
    }
    Ttl::new(u64::from(fields.ttl))
}

fn encode_fields(fields: &Fields, words: &mut Raw) -> Status
    ensures answered { HasEncoded fields.now words.old words.new result }
    ensures kept { IsKept result words.old words.new }
{
    let Some(command) = command_of(fields) else {
        return Status::BadField;
    };
    let Some(ttl) = hint_of(fields, &command) else {
        return Status::BadField;
    };
    legal_words_spell_one_command();
    *words = encode_with_hint(&command, ttl);
    Status::Done
}

/// Writes the text of legal words, ended by a 0, and its length without that. If the buffer is too short, the length is
/// told all the same.
#[unsafe(no_mangle)]
pub extern "C" fn smmuq_text(
    alloc: Global,
    lo: u64,
    hi: u64,
    buffer: &mut [u8],
    written: &mut usize,
) -> u32
    ensures answered { Answers (HasTold (decoding (record { lo = lo; hi = hi })) buffer.old
        buffer.new written.new) result }
    ensures buffer { KeptUnlessDone result buffer.old buffer.new }
    ensures written { CountKept result written.old written.new }
{
    write_text(alloc, Raw { lo, hi }, buffer, written).number()
}

fn write_text(alloc: Global, raw: Raw, buffer: &mut [u8], written: &mut usize) -> Status
    ensures answered { HasTold (decoding raw) buffer.old buffer.new written.new result }
    ensures buffer { IsKept result buffer.old buffer.new }
    ensures written { IsCountKept result written.old written.new }
{
    match decode(raw) {
        Ok(command) => match text(alloc, &command) {
            Ok(line) => copy_text(line.as_bytes(), buffer, written),
            Err(_) => Status::NoMemory,
        },
        Err(ill) => Status::Illegal(ill),
    }
}

/// Copies a text and a 0 after it, and tells its length.
pub(crate) fn copy_text(line: &[u8], buffer: &mut [u8], written: &mut usize) -> Status
    ensures { IsCopied line.now buffer.old buffer.new written.new result }
{
    *written = line.len();
    if line.len() >= buffer.len() {
        return Status::ShortBuffer;
    }
    buffer[..line.len()].copy_from_slice(line);
    buffer[line.len()] = 0;
    Status::Done
}
