//! How software acknowledges an error of the queue.
ghost use Rattle.std.specs.Prelude.{◌≡◌};
ghost use Rattle.hardware_queue.specs.Forwarders.{lost_by};
ghost use Rattle.hardware_queue.specs.Supplying.{slot_overwritten};

/// What is to become of the command at which the hardware stopped.
#[derive(Clone, Copy, Debug, PartialEq, Eq)]
pub enum Remedy {
    /// The hardware reads it again.
    Retry,
    /// A CMD_SYNC without a signal takes its place, and the command is lost.
    Replace,
}

impl Remedy {
    /// Returns how many commands are lost by it.
    pub fn lost(self) -> u64
        ensures { result ≡ lost_by self }
    {
        match self {
            Remedy::Retry => 0,
            Remedy::Replace => 1,
        }
    }

    /// Returns the slot that is written over, where the hardware stopped at this one.
    pub fn overwritten(self, slot: u32) -> Option<u32>
        ensures { result ≡ slot_overwritten self slot }
    {
        match self {
            Remedy::Retry => None,
            Remedy::Replace => Some(slot),
        }
    }
}

/// Why an error isn't acknowledged: the first that applies. Nothing changes.
#[derive(Clone, Copy, Debug, PartialEq, Eq)]
pub enum RemedyFault {
    /// The last look found no stop, or it is acknowledged.
    NotStopped,
    /// The command would be replaced, but the error isn't CERROR_ILL.
    NotIllegal,
    /// The command would be replaced, but it is a CMD_SYNC, which would be replaced by itself.
    IsSync,
}
