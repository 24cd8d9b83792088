//! Whether CMDQ_ERR is active.
ghost use Rattle.std.specs.Prelude.{◌≡◌};
ghost use Rattle.image.specs.Queues.{cmdq_err, error_of};

use crate::asked::ErrorRegisters;
use crate::fault::ImageFault;

/// Whether the SMMU stopped for an error of the command queue that nobody acknowledged yet: CMDQ_ERR.
#[derive(Clone, Copy, Debug, PartialEq, Eq)]
pub(crate) enum CmdqErr {
    /// The registers weren't given.
    NotGiven,
    Active,
    NotActive,
}

fn cmdq_err(gerror: u32, gerrorn: u32) -> CmdqErr
    ensures { result ≡ cmdq_err gerror gerrorn }
{
    if gerror % 2 == gerrorn % 2 {
        CmdqErr::NotActive
    } else {
        CmdqErr::Active
    }
}

impl CmdqErr {
    /// Returns what the error registers tell, or what is wrong with them.
    pub(crate) fn of(registers: Option<ErrorRegisters>) -> Result<CmdqErr, ImageFault>
        ensures { result ≡ error_of registers }
    {
        let Some(registers) = registers else {
            return Ok(CmdqErr::NotGiven);
        };
        match (registers.gerror, registers.gerrorn) {
            (None, _) => Err(ImageFault::BadGerror),
            (Some(_), None) => Err(ImageFault::BadGerrorn),
            (Some(gerror), Some(gerrorn)) => Ok(cmdq_err(gerror, gerrorn)),
        }
    }
}
