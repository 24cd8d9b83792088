//! Why a line is no command's text.
use crate::field::Field;
use crate::named::name;
use cmdcodec::Opcode;
use thiserror::Error;

/// What is wrong with a field of a command.
#[derive(Clone, Copy, Debug, PartialEq, Eq, Error)]
pub enum FieldFault {
    /// No word gives the field.
    #[error("{} is missing", .0.name())]
    Missing(Field),
    /// More than one word gives it.
    #[error("{}: stands twice", .0.name())]
    Twice(Field),
    /// Its word says no number, or one out of its range.
    #[error("{}: {} to {}", .0.name(), .0.least_number(), .0.most_number())]
    OutOfRange(Field),
    /// Its number isn't a multiple of its unit.
    #[error("{}: a multiple of {}", .0.name(), .0.unit())]
    NoMultiple(Field),
    /// The low word is another command's, or a Secure stream's.
    #[error("lo: the word of another command, or of a Secure stream")]
    OtherCommand,
}

/// Why a line is no command's text.
#[derive(Clone, Copy, Debug, PartialEq, Eq, Error)]
pub enum EncodeFault<'a> {
    /// No command has this name.
    #[error("unknown command \"{}\"", .0.escape_ascii())]
    UnknownCommand(&'a [u8]),
    /// This word gives no field of the command.
    #[error("{}: unknown field \"{}\"", name(*.0), .1.escape_ascii())]
    UnknownField(Opcode, &'a [u8]),
    /// A field of the command is wrong.
    #[error("{}: {}", name(*.0), .1)]
    BadField(Opcode, FieldFault),
}
