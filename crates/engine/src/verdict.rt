//! The unit's verdict on a command.
use cmdcodec::{Command, Ill};

/// What a unit did with a command.
#[derive(Clone, Copy, Debug, PartialEq, Eq)]
pub enum Verdict {
    /// It is legal, was applied, and removed `removed` entries.
    Applied { command: Command, removed: u32 },
    /// It is illegal, and consumption stopped there.
    Stopped(Ill),
    /// It is illegal and was to be replaced: it was taken without effect.
    Replaced(Ill),
}

/// What a unit did with the words of a command: a verdict that doesn't name the command, for whoever has the words.
#[derive(Clone, Copy, Debug, PartialEq, Eq)]
pub enum Judgement {
    /// They are legal; the command was applied, and removed `removed` entries.
    Applied { removed: u32 },
    /// They are illegal, and consumption stopped there.
    Stopped(Ill),
    /// They are illegal and were to be replaced: they were taken without effect.
    Replaced(Ill),
}
