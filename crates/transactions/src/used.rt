//! What a transaction uses.
ghost use Rattle.std.specs.Prelude.{◌≡◌};
ghost use Rattle.transactions.specs.Coverage.{is_invalidation, concerns};
ghost use Rattle.transactions.specs.Outstanding.{UsesBlock};

use caches::{Tag, covers};
use cmdcodec::Command;

/// What a transaction uses while it is outstanding.
#[derive(Clone, Copy, Debug, PartialEq, Eq)]
pub enum Used {
    /// An entry of this tag: commands that cover it concern the transaction.
    Entry(Tag),
    /// Tables that a walk reads, and those it is led to: each invalidation concerns it. This
    /// project's choice, since what a walk will read isn't known before.
    Tables,
}

/// Whether a command concerns what is used.
pub(crate) fn concerns(command: &Command, used: &Used) -> bool
    requires { UsesBlock used.now }
    ensures { result ≡ concerns command.now used.now }
{
    match used {
        Used::Entry(tag) => covers(command, tag),
        Used::Tables => invalidates(command),
    }
}

/// Whether a command is an invalidation.
fn invalidates(command: &Command) -> bool
    ensures { result ≡ is_invalidation command.now }
{
    !matches!(command, Command::Kept(_) | Command::CmdSync { .. })
}
