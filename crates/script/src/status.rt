//! How a run ended, for the caller of a program.
ghost use Rattle.std.specs.Prelude.{◌≡◌};
ghost use Rattle.script.specs.Statuses.{status_of, exit_status};

use crate::ending::Ending;
use crate::error::ServeError;

/// How a run ended.
#[derive(Clone, Copy, Debug, PartialEq, Eq)]
pub enum Status {
    /// The input was served to its end.
    Good,
    /// The input was refused; the answer says so.
    Refused,
    /// Memory ran out; the line `no memory` says so.
    NoMemory,
    /// A read failed. The lines whose ends were read were answered.
    ReadFailed,
    /// A write failed. What was written stays.
    WriteFailed,
    /// The input had 2^63 bytes or more, with no end in sight.
    Endless,
}

impl Status {
    /// Returns the exit status of a program that ended so.
    pub fn exit_status(self) -> u8
        ensures { result ≡ exit_status self }
    {
        match self {
            Status::Good => 0,
            Status::Refused => 1,
            Status::NoMemory => 3,
            Status::ReadFailed | Status::WriteFailed | Status::Endless => 4,
        }
    }
}

/// Returns the status of a script, given how it was served.
pub fn status_of(served: &Result<Ending, ServeError>) -> Status
    ensures { result ≡ status_of served.now }
{
    match served {
        Ok(Ending::Finished) => Status::Good,
        Ok(Ending::Refused) => Status::Refused,
        Err(ServeError::Memory(_)) => Status::NoMemory,
        Err(ServeError::Read(_)) => Status::ReadFailed,
        Err(ServeError::Write(_)) => Status::WriteFailed,
        Err(ServeError::Endless) => Status::Endless,
    }
}
