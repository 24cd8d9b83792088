//! A place in which a batch is made and from which it is lent.
ghost use Rattle.std.specs.Prelude.{◌≡◌, [], map};
ghost use Rattle.cmdcodec.specs.Words.{encoding};
ghost use Rattle.batch.specs.Ranges.{range_commands};
ghost use Rattle.batch.specs.Detaching.{detach_commands};
ghost use Rattle.batch.specs.Refusals.{unless, list_refusal, range_refusal};

use crate::body::Commands;
use crate::borrowed::BorrowedBatch;
use crate::copying::copy_of;
use crate::detach::append_detach;
use crate::fault::BatchFault;
use crate::range::append_range;
use cmdcodec::{Asid, Page, Raw, Sid, Vmid};

/// A place in which batches are made, one after another, and from which each is lent (own). A `Batch` is a
/// kilobyte, which moves with it; what is lent stays where it was made.
#[derive(Debug, Drop)]
pub struct BatchBuffer {
    commands: Commands,
}

impl BatchBuffer {
    /// Creates a place in which no batch is made yet.
    pub fn new() -> BatchBuffer {
        BatchBuffer {
            commands: Commands::new(),
        }
    }

    /// Makes the batch that `Batch::from_raws` makes. Errors: the first of B5, B1 and B2 that applies. It judges its own
    /// copy: each word is read once.
    pub fn copied(&mut self, commands: &[Raw]) -> Result<BorrowedBatch<'_>, BatchFault>
        ensures { result ≡ unless (list_refusal commands.now) commands.now }
    {
        copy_of(commands, &mut self.commands)?;
        BorrowedBatch::new(self.commands.as_slice())
    }

    /// Makes the batch that `Batch::range` makes. Errors: the first of B3, B4 and B1 that applies.
    pub fn range(
        &mut self,
        vmid: Vmid,
        asid: Asid,
        page: Page,
        pages: u64,
    ) -> Result<BorrowedBatch<'_>, BatchFault>
        ensures { result ≡ unless (range_refusal [] vmid asid page pages) (map encoding (range_commands vmid asid page pages)) }
    {
        self.commands.clear();
        match append_range(&mut self.commands, vmid, asid, page, pages) {
            Ok(()) => Ok(BorrowedBatch {
                commands: self.commands.as_slice(),
            }),
            Err(fault) => Err(fault),
        }
    }

    /// Makes the batch that `Batch::detach` makes.
    pub fn detach(&mut self, sid: Sid) -> BorrowedBatch<'_>
        ensures { result ≡ map encoding (detach_commands sid) }
    {
        self.commands.clear();
        append_detach(&mut self.commands, sid);
        BorrowedBatch {
            commands: self.commands.as_slice(),
        }
    }
}
