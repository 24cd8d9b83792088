//! Words that ask for no subcommand.
ghost use Rattle.std.specs.Prelude.{◌≡◌, ◌≢◌, ◌↔◌, ◌⊎◌, IsTrue};
ghost use Rattle.clap.specs.Words.{kind_of};
ghost use Rattle.clap.specs.declared.error.kind.ErrorKind.TheVariants.{DisplayHelp, DisplayVersion, OutOfMemory};

use clap::Error;
use clap::error::ErrorKind;
use std::alloc::Global;
use std::marker::Model;

/// Why words ask for no subcommand: they ask for help, they aren't understood, or memory ran out.
#[derive(Drop)]
pub struct Misunderstood {
    kind: ErrorKind,
    /// The help, or what is wrong with the words, with its final line ends.
    text: String,
}

impl Model for Misunderstood {
    ghost use Rattle.std.specs.Prelude.{string_bytes};
    ghost use Rattle.std.specs.Str.{trim_end};
    ghost use Rattle.command_line.specs.CommandLine.{MisunderstoodValue};

    ghost Value = { MisunderstoodValue };

    ghost view = { λ m. record { kind = m.kind; text = trim_end (string_bytes m.text) } };
}

impl Misunderstood {
    /// Takes over what an error says. If there is no memory for its text, says that instead.
    pub(crate) fn new(alloc: Global, error: &Error) -> Misunderstood
        ensures { (result.kind ≡ OutOfMemory) ⊎ (result.kind ≡ kind_of error.now) }
    {
        match format!(in alloc; "{error}") {
            Ok(text) => Misunderstood {
                kind: error.kind(),
                text,
            },
            Err(_) => Misunderstood {
                kind: ErrorKind::OutOfMemory,
                text: String::new(alloc),
            },
        }
    }

    /// Whether memory ran out.
    pub fn is_out_of_memory(&self) -> bool
        ensures { IsTrue result ↔ (self.now.kind ≡ OutOfMemory) }
    {
        self.kind == ErrorKind::OutOfMemory
    }

    /// Whether no help was asked for: the words aren't understood, or memory ran out.
    pub fn is_fault(&self) -> bool
        ensures { IsTrue result
            ↔ ((self.now.kind ≢ DisplayHelp) × (self.now.kind ≢ DisplayVersion)) }
    {
        !matches!(
            self.kind,
            ErrorKind::DisplayHelp | ErrorKind::DisplayVersion
        )
    }

    /// Returns the help, or what is wrong with the words, without the end of its last line.
    pub fn text(&self) -> &str
        ensures { result.now ≡ self.now.text }
    {
        self.text.as_str().trim_end()
    }
}
