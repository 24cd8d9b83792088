//! Why no more commands of a guest are converted.
ghost use Rattle.std.specs.Prelude.{◌≡◌};
ghost use Rattle.guest_commands.specs.Conversions.{stop_of};

use cmdcodec::{Command, Ill, Opcode};

/// Why a command of a guest is never taken: it is for the hypervisor.
#[derive(Clone, Copy, PartialEq, Eq)]
pub enum Stop {
    /// CMD_SYNC: it is complete once the host's commands for all before it are.
    Sync,
    /// This CMD_CFGI_STE or CMD_CFGI_STE_RANGE: the hypervisor reads these entries of the guest's stream table again, and
    /// writes the host's (`Guest::configuration`).
    Configure(Command),
    /// The guest's queue stops at the command with CERROR_ILL.
    Illegal(Ill),
    /// The command is legal, but of an exception level or a stage that the guest doesn't have, or an answer to a page
    /// request or a stall (this project's choice).
    Refused,
}

impl Stop {
    /// Returns why a command of a guest isn't taken, or `None` for one that is.
    pub(crate) fn of(command: &Command) -> Option<Stop>
        ensures { result ≡ stop_of command.now }
    {
        match *command {
            Command::CfgiSte { .. } | Command::CfgiSteRange { .. } => Some(Stop::Configure(
                *command,
            )),
            Command::CmdSync { .. } => Some(Stop::Sync),
            Command::Kept(kept) => match kept.get().opcode() {
                Some(Opcode::PrefetchConfig | Opcode::PrefetchAddr) => None,
                _ => Some(Stop::Refused),
            },
            Command::CfgiCd { .. }
            | Command::CfgiCdAll { .. }
            | Command::TlbiNhAll { .. }
            | Command::TlbiNhAsid { .. }
            | Command::TlbiNhVa { .. }
            | Command::TlbiNhVaa { .. }
            | Command::TlbiNsnhAll
            | Command::AtcInv { .. } => None,
            _ => Some(Stop::Refused),
        }
    }
}

/// Why no more of a guest's commands were taken.
#[derive(Clone, Copy, PartialEq, Eq)]
pub enum Ended {
    /// All were.
    End,
    /// The host's commands for the next one don't fit.
    Full,
    /// The next one is never taken.
    At(Stop),
}
