//! The exports that build batches.
ghost use Rattle.std.specs.Prelude.{◌≡◌, map};
ghost use Rattle.cmdcodec.specs.Words.{encoding};
ghost use Rattle.smmuq_c.specs.Calls.{Answers};
ghost use Rattle.smmu_features.specs.IdRegisters.{smmu_of};
ghost use Rattle.smmuq_c.specs.Batches.{IsGiven, HasRange, HasDetach, HasDetachedEndpoint};
ghost use Rattle.smmuq_c.specs.Kept.{CountKept, IsCountKept, IsKept, KeptUnlessDone};

use crate::fields::flag;
use crate::status::Status;
use batch::Batch;
use cmdcodec::{Asid, Page, Raw, Sid, Vmid};
use detachment::Detachment;
use smmu_features::Smmu;

/// Writes a batch's commands to a buffer, and their number to `count`.
fn give(batch: &Batch, buffer: &mut [Raw], count: &mut usize) -> Status
    ensures { IsGiven batch.now buffer.old buffer.new count.new result }
{
    *count = batch.len();
    if buffer.len() < batch.len() {
        return Status::ShortBuffer;
    }
    buffer[..batch.len()].copy_from_slice(batch.as_slice());
    Status::Done
}

/// Writes the commands that invalidate `pages` pages of an address space from the one that holds `address` on, at most
/// 63, and their number. B3, B4 or B1 if there are none; `BAD_FIELD` if `vmid` or `asid` has more than 16 bits. If the
/// buffer is too short, the number of commands is told all the same.
#[unsafe(no_mangle)]
pub extern "C" fn smmuq_range(
    vmid: u32,
    asid: u32,
    address: u64,
    pages: u64,
    buffer: &mut [Raw],
    count: &mut usize,
) -> u32
    ensures answered { Answers (HasRange vmid asid address pages buffer.old buffer.new count.new)
        result }
    ensures buffer { KeptUnlessDone result buffer.old buffer.new }
    ensures count { CountKept result count.old count.new }
{
    write_range(vmid, asid, address, pages, buffer, count).number()
}

fn write_range(
    vmid: u32,
    asid: u32,
    address: u64,
    pages: u64,
    buffer: &mut [Raw],
    count: &mut usize,
) -> Status
    ensures answered { HasRange vmid asid address pages buffer.old buffer.new count.new result }
    ensures buffer { IsKept result buffer.old buffer.new }
    ensures count { IsCountKept result count.old count.new }
{
    let Some(vmid) = Vmid::new(u64::from(vmid)) else {
        return Status::BadField;
    };
    let Some(asid) = Asid::new(u64::from(asid)) else {
        return Status::BadField;
    };
    let page = Page::new(address >> 12).unwrap();
    match Batch::range(vmid, asid, page, pages) {
        Ok(batch) => give(&batch, buffer, count),
        Err(fault) => Status::Batch(fault),
    }
}

/// Writes the commands for the configuration of a stream whose use ends, for an SMMU with these ID registers, and their
/// number: CMD_CFGI_STE, and CMD_CFGI_CD_ALL if it has stage 1. If the buffer is too short, the number is told all the same.
#[unsafe(no_mangle)]
pub extern "C" fn smmuq_detach(
    idr0: u32,
    idr1: u32,
    idr3: u32,
    idr5: u32,
    sid: u32,
    buffer: &mut [Raw],
    count: &mut usize,
) -> u32
    ensures answered { Answers (HasDetach (smmu_of idr0 idr1 idr3 idr5) sid
        buffer.old buffer.new count.new) result }
    ensures buffer { KeptUnlessDone result buffer.old buffer.new }
    ensures count { CountKept result count.old count.new }
{
    let smmu = Smmu::from_registers(idr0, idr1, idr3, idr5);
    write_detach(&smmu, sid, buffer, count).number()
}

fn write_detach(smmu: &Smmu, sid: u32, buffer: &mut [Raw], count: &mut usize) -> Status
    ensures answered { HasDetach smmu.now sid buffer.old buffer.new count.new result }
    ensures buffer { IsKept result buffer.old buffer.new }
    ensures count { IsCountKept result count.old count.new }
{
    let sid = Sid::new(u64::from(sid)).unwrap();
    give(
        &Detachment::new(sid, smmu, false).configuration(),
        buffer,
        count,
    )
}

/// Writes the command for what the endpoint of such a stream caches, and the number of commands: CMD_ATC_INV, or none if
/// `ats` is 0 or the SMMU has no ATS. It is to be sent only once those of `smmuq_detach` are complete. `BAD_FIELD` if `ats`
/// is neither 0 nor 1. If the buffer is too short, the number is told all the same.
#[unsafe(no_mangle)]
pub extern "C" fn smmuq_detach_endpoint(
    idr0: u32,
    idr1: u32,
    idr3: u32,
    idr5: u32,
    sid: u32,
    ats: u32,
    buffer: &mut [Raw],
    count: &mut usize,
) -> u32
    ensures answered { Answers (HasDetachedEndpoint (smmu_of idr0 idr1 idr3 idr5) sid ats
        buffer.old buffer.new count.new) result }
    ensures buffer { KeptUnlessDone result buffer.old buffer.new }
    ensures count { CountKept result count.old count.new }
{
    let smmu = Smmu::from_registers(idr0, idr1, idr3, idr5);
    write_endpoint(&smmu, sid, ats, buffer, count).number()
}

fn write_endpoint(smmu: &Smmu, sid: u32, ats: u32, buffer: &mut [Raw], count: &mut usize) -> Status
    ensures answered { HasDetachedEndpoint smmu.now sid ats buffer.old buffer.new count.new result }
    ensures buffer { IsKept result buffer.old buffer.new }
    ensures count { IsCountKept result count.old count.new }
{
    let Some(ats) = flag(ats) else {
        return Status::BadField;
    };
    let sid = Sid::new(u64::from(sid)).unwrap();
    match Detachment::new(sid, smmu, ats).endpoint() {
        Some(batch) => give(&batch, buffer, count),
        None => {
            *count = 0;
            Status::Done
        }
    }
}
