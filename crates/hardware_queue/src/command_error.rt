//! Why the hardware stopped.
ghost use Rattle.std.specs.Prelude.{◌≡◌};
ghost use Rattle.hardware_queue.specs.Queues.{error_in};

/// The error of a command queue, SMMU_CMDQ_CONS.ERR.
#[derive(Clone, Copy, Debug, PartialEq, Eq)]
pub enum CommandError {
    /// CERROR_ILL, 1: the hardware calls the command illegal.
    Illegal,
    /// CERROR_ABT, 2: it couldn't read the command.
    Abort,
    /// CERROR_ATC_INV_SYNC, 3: an endpoint didn't answer a CMD_ATC_INV before this CMD_SYNC.
    AtcInvSync,
    /// CERROR_NONE, 0, though an error is active, or a reserved number, 4 to 127.
    Reserved(u32),
}

impl CommandError {
    /// Returns what ERR, bits 30:24, of a value of SMMU_CMDQ_CONS says.
    pub fn of(cons: u32) -> CommandError
        ensures { result ≡ error_in cons }
    {
        match (cons >> 24) % 128 {
            1 => CommandError::Illegal,
            2 => CommandError::Abort,
            3 => CommandError::AtcInvSync,
            number => CommandError::Reserved(number),
        }
    }
}
