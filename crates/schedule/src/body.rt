//! The commands of a line that reserves.
ghost use Rattle.std.specs.Prelude.{◌≡◌, IfOk};

use cmdcodec::{Raw, RawList};
use std::alloc::{AllocError, Global};
use std::marker::Model;

/// The commands that a line reserves, boxed, so that every request is small.
#[derive(Debug, Drop)]
pub struct Body {
    commands: Box<RawList>,
}

impl Model for Body {
    ghost use Rattle.arrayvec.specs.ArrayVec.{ArrayVec};
    ghost use Rattle.cmdcodec.specs.declared.raw.Raw.{Raw};

    ghost Value = { ArrayVec Raw };

    ghost view = { λ body. body.commands.value };
}

impl Body {
    /// Returns a body of these commands.
    ///
    /// Errors: out of memory.
    pub(crate) fn new(alloc: Global, commands: RawList) -> Result<Body, AllocError>
        ensures { IfOk result (λ body. body ≡ commands) }
    {
        Ok(Body {
            commands: Box::new(alloc, commands)?,
        })
    }

    /// Returns the commands, in order.
    pub fn commands(&self) -> &[Raw]
        ensures { result.now ≡ self.now.items }
    {
        self.commands.as_slice()
    }
}
