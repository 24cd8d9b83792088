//! What a call of a forwarder does.
ghost use Rattle.std.specs.Prelude.{◌≡◌};
ghost use Rattle.hardware_queue.specs.Forwarders.{refusal_at};

use crate::command_error::CommandError;
use crate::remedy::{Remedy, RemedyFault};
use cmdcodec::Raw;

/// The command at which the hardware stopped, as it was shown, and the error.
#[derive(Clone, Copy, Debug, PartialEq, Eq)]
pub struct Stopped {
    pub command: Raw,
    pub error: CommandError,
}

impl Stopped {
    /// Returns why a remedy is refused at this stop, if it is: only an illegal command is replaced, and no CMD_SYNC.
    pub fn refusal(self, remedy: Remedy) -> Option<RemedyFault>
        ensures { result ≡ refusal_at remedy self }
    {
        match (remedy, self.error) {
            (Remedy::Retry, _) => None,
            (Remedy::Replace, CommandError::Illegal) => {
                if self.command.is_sync() {
                    Some(RemedyFault::IsSync)
                } else {
                    None
                }
            }
            (Remedy::Replace, _) => Some(RemedyFault::NotIllegal),
        }
    }
}

/// What the caller of `Forwarder::acknowledge_words` does, in this order, to acknowledge an error.
#[derive(Clone, Copy, Debug, PartialEq, Eq)]
pub struct Acknowledgement {
    /// Where the hardware stopped, and why.
    pub stopped: Stopped,
    /// The slot that gets a CMD_SYNC without a signal, 0x46 and 0, if the command is replaced.
    pub slot: Option<u32>,
    /// The word for SMMU_GERRORN.
    pub gerrorn: u32,
}

/// What a call of `Forwarder::forward` did.
#[derive(Clone, Copy, Debug, PartialEq, Eq)]
pub enum Forwarded {
    /// Nothing is reserved.
    Empty,
    /// Nothing is reserved, and nothing will be.
    Drained,
    /// The command at the head isn't handed over.
    Unwritten,
    /// As many commands as the hardware's queue has slots aren't settled, and nothing was done.
    Full,
    /// So many commands were taken, and the hardware was shown what it gets for them.
    Shown(u32),
    /// This illegal command was taken, and the hardware wasn't shown it.
    Replaced(Raw),
    /// SMMU_CMDQ_CONS had this value, which no working queue has. Nothing is done until `restart`.
    Broken(u32),
}
