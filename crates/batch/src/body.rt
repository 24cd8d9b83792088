//! A batch, command by command.
ghost use Rattle.std.specs.Prelude.{◌≡◌, ◌++◌, ◌∷◌, [], List, Ok, OnOk, OnErr, IfSome, length, slice_get, map, false};
ghost use Rattle.cmdcodec.specs.declared.raw.Raw.{Raw};
ghost use Rattle.cmdcodec.specs.Words.{encoding};
ghost use Rattle.cmdcodec.specs.Opcodes.{is_sync};
ghost use Rattle.cmdcodec.specs.Bodies.{IsBody};
ghost use Rattle.batch.specs.Ranges.{range_commands};
ghost use Rattle.batch.specs.Detaching.{detach_commands};
ghost use Rattle.batch.specs.Refusals.{unless, new_refusal, list_refusal, push_refusal, room_refusal, range_refusal};

use crate::borrowed::BorrowedBatch;
use crate::copying::copy_of;
use crate::detach::{DETACH_COMMANDS, append_detach};
use crate::fault::BatchFault;
use crate::range::append_range;
use arrayvec::ArrayVec;
use cmdcodec::{Asid, Command, MOST_BODY_COMMANDS, Page, Raw, Sid, Vmid, encode};
use std::marker::Model;

/// Commands on their way into a batch.
pub(crate) type Commands = ArrayVec<Raw, MOST_BODY_COMMANDS>;

/// The commands of a batch: 1 to 63, legal or not, none of them a CMD_SYNC (own).
#[derive(Debug, Drop)]
pub struct Batch {
    commands: Commands,
}

impl Model for Batch {
    ghost Value = { List Raw };

    ghost view = { λ batch. batch.commands.items };

    ghost invariant = { λ batch. IsBody batch.commands.items };
}

impl Batch {
    /// Creates a batch of one command. Errors: B2 if it is a CMD_SYNC.
    pub fn new(first: Raw) -> Result<Batch, BatchFault>
        ensures { result ≡ unless (new_refusal first) (first ∷ []) }
    {
        if first.is_sync() {
            return Err(BatchFault::SyncInside);
        }
        let mut commands = Commands::new();
        commands.push(first);
        Ok(Batch { commands })
    }

    /// Creates a batch of these commands. Errors: the first of B5, B1 and B2 that applies. It judges its own copy: each
    /// word is read once (own).
    pub fn from_raws(raws: &[Raw]) -> Result<Batch, BatchFault>
        ensures { result ≡ unless (list_refusal raws.now) raws.now }
    {
        let mut commands = Commands::new();
        copy_of(raws, &mut commands)?;
        BorrowedBatch::new(commands.as_slice())?;
        Ok(Batch { commands })
    }

    /// Creates a batch that invalidates the stage 1 translations of an address space for `pages` pages of
    /// 4,096 bytes from `page` on: CMD_TLBI_NH_VA with Leaf 1, by ranges if possible. Errors: the first of
    /// B3, B4 and B1 that applies.
    pub fn range(vmid: Vmid, asid: Asid, page: Page, pages: u64) -> Result<Batch, BatchFault>
        ensures { result ≡ unless (range_refusal [] vmid asid page pages) (map encoding (range_commands vmid asid page pages)) }
    {
        let mut commands = Commands::new();
        match append_range(&mut commands, vmid, asid, page, pages) {
            Ok(()) => Ok(Batch { commands }),
            Err(fault) => Err(fault),
        }
    }

    /// Creates a batch that detaches a stream: CMD_CFGI_STE with Leaf 1, CMD_CFGI_CD_ALL, and CMD_ATC_INV for
    /// all pages, in this order (own). It never fails. It is for a unit that works in order, or an endpoint without
    /// ATS: a real SMMU wants a CMD_SYNC before the ATC_INV (crate detachment).
    pub fn detach(sid: Sid) -> Result<Batch, BatchFault>
        ensures { result ≡ Ok (map encoding (detach_commands sid)) }
    {
        let mut commands = Commands::new();
        append_detach(&mut commands, sid);
        Ok(Batch { commands })
    }

    /// Appends the words of a command. Errors: the first of B2 and B1 that applies.
    pub fn push(&mut self, command: &Command) -> Result<(), BatchFault>
        ensures answer { result ≡ unless (push_refusal self.old (encoding command.now)) tt }
        ensures appended { OnOk result (self.new ≡ self.old ++ encoding command.now ∷ []) }
        ensures unchanged { OnErr result (self.new ≡ self.old) }
    {
        self.push_raw(encode(command))
    }

    /// Appends a command. Errors: the first of B2 and B1 that applies.
    pub fn push_raw(&mut self, raw: Raw) -> Result<(), BatchFault>
        ensures answer { result ≡ unless (push_refusal self.old raw) tt }
        ensures appended { OnOk result (self.new ≡ self.old ++ raw ∷ []) }
        ensures unchanged { OnErr result (self.new ≡ self.old) }
    {
        if raw.is_sync() {
            return Err(BatchFault::SyncInside);
        }
        if self.commands.is_full() {
            return Err(BatchFault::Full);
        }
        self.commands.push(raw);
        Ok(())
    }

    /// Appends all that `range` makes, or nothing. Errors: the first of B3, B4 and B1 that applies.
    pub fn invalidate_range(
        &mut self,
        vmid: Vmid,
        asid: Asid,
        page: Page,
        pages: u64,
    ) -> Result<(), BatchFault>
        ensures answer { result ≡ unless (range_refusal self.old vmid asid page pages) tt }
        ensures appended { OnOk result (self.new ≡ self.old ++ map encoding (range_commands vmid asid page pages)) }
        ensures unchanged { OnErr result (self.new ≡ self.old) }
    {
        append_range(&mut self.commands, vmid, asid, page, pages)
    }

    /// Appends all that `detach` makes, or nothing, for what `detach` is for. Errors: B1 if there is too little room.
    pub fn detach_stream(&mut self, sid: Sid) -> Result<(), BatchFault>
        ensures answer { result ≡ unless (room_refusal self.old (length (detach_commands sid))) tt }
        ensures appended { OnOk result (self.new ≡ self.old ++ map encoding (detach_commands sid)) }
        ensures unchanged { OnErr result (self.new ≡ self.old) }
    {
        if self.commands.remaining_capacity() < DETACH_COMMANDS {
            return Err(BatchFault::Full);
        }
        append_detach(&mut self.commands, sid);
        Ok(())
    }

    /// Returns how many commands there are, 1 to 63.
    pub fn len(&self) -> usize
        ensures value { result ≡ length self.now }
        ensures body { IsBody self.now }
    {
        self.commands.len()
    }

    /// Returns the same commands, borrowed.
    pub fn as_borrowed(&self) -> BorrowedBatch<'_>
        ensures { result ≡ self.now }
    {
        BorrowedBatch {
            commands: self.commands.as_slice(),
        }
    }

    /// Returns the commands as a slice.
    pub fn as_slice(&self) -> &[Raw]
        ensures value { result.now ≡ self.now }
        ensures body { IsBody self.now }
    {
        self.commands.as_slice()
    }

    /// Returns the command at an index, from 0, or `None` past the last.
    pub fn get(&self, index: usize) -> Option<Raw>
        ensures value { result ≡ slice_get self.now index }
        ensures no_sync { IfSome result (λ raw. is_sync raw ≡ false) }
    {
        self.commands.get(index).copied()
    }
}

impl From<BorrowedBatch<'_>> for Batch {
    /// Copies the commands.
    fn from(batch: BorrowedBatch<'_>) -> Batch
        ensures { result ≡ batch.entry }
    {
        let mut commands = Commands::new();
        commands.try_extend_from_slice(batch.commands).unwrap();
        Batch { commands }
    }
}
