//! What is asked, as far as it can be judged before the image is read.
ghost use Rattle.std.specs.Prelude.{◌≡◌, IfOk};
ghost use Rattle.image.specs.Queues.{IsKnown, request_of};

use crate::asked::Asked;
use crate::error::CmdqErr;
use crate::fault::ImageFault;
use crate::known::{Known, known_of};

/// What is shown behind the first five lines.
#[derive(Clone, Copy, Debug, PartialEq, Eq)]
pub(crate) struct Shown {
    /// Whether all slots are shown, and not only those that wait.
    pub all: bool,
    pub error: CmdqErr,
}

/// What is asked.
#[derive(Clone, Copy, Debug, PartialEq, Eq)]
pub(crate) struct Request {
    pub known: Known,
    pub shown: Shown,
}

impl Request {
    /// Returns what is asked, or what is wrong with it whatever the image is.
    #[tactic(auto, unfolding(crate::specs::Queues::request_of))]
    pub(crate) fn of(asked: &Asked) -> Result<Request, ImageFault>
        ensures value { result ≡ request_of asked.now }
        ensures known { IfOk result (λ request. IsKnown request.known) }
    {
        let known = match known_of(asked) {
            Ok(known) => known,
            Err(fault) => return Err(fault),
        };
        match CmdqErr::of(asked.errors) {
            Ok(error) => Ok(Request {
                known,
                shown: Shown {
                    all: asked.all,
                    error,
                },
            }),
            Err(fault) => Err(fault),
        }
    }
}
