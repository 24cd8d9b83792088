//! A batch whose commands stay with their owner.
ghost use Rattle.std.specs.Prelude.{◌≡◌, IfSome, List, length, slice_get, false};
ghost use Rattle.std.specs.List.{list_any};
ghost use Rattle.cmdcodec.specs.declared.raw.Raw.{Raw};
ghost use Rattle.cmdcodec.specs.Opcodes.{is_sync};
ghost use Rattle.cmdcodec.specs.Bodies.{IsBody};
ghost use Rattle.batch.specs.Refusals.{unless, list_refusal};

use crate::fault::BatchFault;
use cmdcodec::{MOST_BODY_COMMANDS, Raw};
use std::marker::Model;

/// A batch whose commands stay with their owner, such as in an array: 1 to 63, legal or not, none of them a
/// CMD_SYNC (own). It copies no command.
#[derive(Debug, Drop)]
pub struct BorrowedBatch<'b> {
    pub(crate) commands: &'b [Raw],
}

impl<'b> Model for BorrowedBatch<'b> {
    ghost Value = { List Raw };

    ghost view = { λ batch. batch.commands.now };

    ghost invariant = { λ batch. IsBody batch.commands.now };
}

impl<'b> BorrowedBatch<'b> {
    /// Creates a batch of these commands. Errors: the first of B5, B1 and B2 that applies.
    pub fn new(commands: &'b [Raw]) -> Result<BorrowedBatch<'b>, BatchFault>
        ensures { result ≡ unless (list_refusal commands.now) commands.now }
    {
        if commands.is_empty() {
            return Err(BatchFault::Empty);
        }
        if commands.len() > MOST_BODY_COMMANDS {
            return Err(BatchFault::Full);
        }
        if has_sync(commands) {
            return Err(BatchFault::SyncInside);
        }
        Ok(BorrowedBatch { commands })
    }

    /// Returns the same commands, borrowed once more.
    pub fn reborrow(&self) -> BorrowedBatch<'b>
        ensures { result ≡ self.now }
    {
        BorrowedBatch {
            commands: self.commands,
        }
    }

    /// Returns how many commands there are, 1 to 63.
    pub fn len(&self) -> usize
        ensures value { result ≡ length self.now }
        ensures body { IsBody self.now }
    {
        self.commands.len()
    }

    /// Returns the commands as a slice.
    pub fn as_slice(&self) -> &'b [Raw]
        ensures value { result.now ≡ self.now }
        ensures body { IsBody self.now }
    {
        self.commands
    }

    /// The command at an index, from 0; `None` behind the last.
    pub fn get(&self, index: usize) -> Option<Raw>
        ensures value { result ≡ slice_get self.now index }
        ensures no_sync { IfSome result (λ raw. is_sync raw ≡ false) }
    {
        self.commands.get(index).copied()
    }
}

fn has_sync(raws: &[Raw]) -> bool
    ensures { result ≡ list_any is_sync raws.now }
{
    raws.iter().any(|raw| raw.is_sync())
}
