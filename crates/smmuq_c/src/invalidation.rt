//! The commands for what a driver changed, and the export that tells them.
ghost use Rattle.std.specs.Prelude.{◌≡◌, ◌<◌, ◌≤◌, ◌^◌, ◌++◌, List as ListOf, length, drop, MatchOption};
ghost use Rattle.cmdcodec.specs.declared.raw.Raw.{Raw as RawOf};
ghost use Rattle.smmu_features.specs.IdRegisters.{smmu_of};
ghost use Rattle.invalidations.specs.Filling.{AreWordsOfAll};
ghost use Rattle.invalidations.specs.Plans.{commands_of, planned};
ghost use Rattle.smmuq_c.specs.Batches.{IsGiven};
ghost use Rattle.smmuq_c.specs.Calls.{Answers};
ghost use Rattle.smmuq_c.specs.Changes.{AreGiven, HasAsked, HasInvalidation, HasNestedInvalidation, HasPlanned, IsCountable, fault_status, words_of_one};
ghost use Rattle.smmuq_c.specs.Kept.{CountKept, IsCountKept, IsKept, KeptUnlessDone};

use crate::asked::Asked;
use crate::change::Change;
use crate::status::Status;
use batch::BatchFault;
use cmdcodec::{Command, Granule, Raw, Vmid, encode};
use invalidations::{Bytes, Commands, Entries, Invalidation, InvalidationFault, Policy, Space};
use smmu_features::Smmu;

fn fault_status(fault: InvalidationFault) -> Status
    ensures { result ≡ fault_status fault }
{
    match fault {
        InvalidationFault::Unsupported => Status::Unsupported,
        InvalidationFault::PastEnd => Status::Batch(BatchFault::PastEnd),
    }
}

/// Writes the words of the commands for what a driver changed, as an SMMU with these ID registers takes them, and their
/// number, which is told too if the buffer is too short. `UNSUPPORTED` if the SMMU lacks the stage, the granule or ATS,
/// `PAST_END` if a byte is past the last one, `BAD_FIELD` if a field is out of range.
#[unsafe(no_mangle)]
pub extern "C" fn smmuq_invalidation(
    idr0: u32,
    idr1: u32,
    idr3: u32,
    idr5: u32,
    change: &Change,
    buffer: &mut [Raw],
    count: &mut usize,
) -> u32
    ensures answered { Answers (HasInvalidation (smmu_of idr0 idr1 idr3 idr5) change.now
        buffer.old buffer.new count.new) result }
    ensures buffer { KeptUnlessDone result buffer.old buffer.new }
    ensures count { CountKept result count.old count.new }
{
    let smmu = Smmu::from_registers(idr0, idr1, idr3, idr5);
    let change = Change::read(change);
    write_invalidation(&smmu, &change, buffer, count).number()
}

/// Writes the command that follows a change of stage 2 under which stage 1 of the VMID is nested, and the number of
/// commands: CMD_TLBI_NH_ALL of the VMID, or none if the SMMU has no stage 1. It is to be sent only once those for the change
/// are complete. `BAD_FIELD` if `vmid` has more than 16 bits. If the buffer is too short, the number is told all the same.
#[unsafe(no_mangle)]
pub extern "C" fn smmuq_nested_invalidation(
    idr0: u32,
    idr1: u32,
    idr3: u32,
    idr5: u32,
    vmid: u32,
    buffer: &mut [Raw],
    count: &mut usize,
) -> u32
    ensures answered { Answers (HasNestedInvalidation (smmu_of idr0 idr1 idr3 idr5) vmid
        buffer.old buffer.new count.new) result }
    ensures buffer { KeptUnlessDone result buffer.old buffer.new }
    ensures count { CountKept result count.old count.new }
{
    let smmu = Smmu::from_registers(idr0, idr1, idr3, idr5);
    write_nested(&smmu, vmid, buffer, count).number()
}

fn write_nested(smmu: &Smmu, vmid: u32, buffer: &mut [Raw], count: &mut usize) -> Status
    ensures answered { HasNestedInvalidation smmu.now vmid buffer.old buffer.new count.new result }
    ensures buffer { IsKept result buffer.old buffer.new }
    ensures count { IsCountKept result count.old count.new }
{
    let Some(vmid) = Vmid::new(u64::from(vmid)) else {
        return Status::BadField;
    };
    let stage_2 = Invalidation {
        space: Space::Stage2 { vmid },
        bytes: Bytes::Everything,
        granule: Granule::Kib4,
        entries: Entries::Any,
    };
    match stage_2.stage_1_behind(smmu) {
        Some(stage_1) => give_command(Some(stage_1.whole()), buffer, count),
        None => give_command(None, buffer, count),
    }
}

fn write_invalidation(smmu: &Smmu, change: &Change, buffer: &mut [Raw], count: &mut usize) -> Status
    ensures answered { HasInvalidation smmu.now change.now buffer.old buffer.new count.new result }
    ensures buffer { IsKept result buffer.old buffer.new }
    ensures count { IsCountKept result count.old count.new }
{
    match change.asked() {
        Some(asked) => write_asked(smmu, &asked, buffer, count),
        None => Status::BadField,
    }
}

fn write_asked(smmu: &Smmu, asked: &Asked, buffer: &mut [Raw], count: &mut usize) -> Status
    requires { IsCountable asked.now }
    ensures answered { HasAsked smmu.now asked.now buffer.old buffer.new count.new result }
    ensures buffer { IsKept result buffer.old buffer.new }
    ensures count { IsCountKept result count.old count.new }
{
    match asked {
        Asked::Translations(invalidation, policy) => {
            write_commands(smmu, invalidation, policy, buffer, count)
        }
        Asked::Accesses(endpoint, bytes) => match endpoint.invalidate(bytes, smmu) {
            Ok(command) => give_command(command, buffer, count),
            Err(fault) => fault_status(fault),
        },
    }
}

fn write_commands(
    smmu: &Smmu,
    invalidation: &Invalidation,
    policy: &Policy,
    buffer: &mut [Raw],
    count: &mut usize,
) -> Status
    requires { policy.now.most_commands < 2 ^ 32 }
    ensures planned { HasPlanned (planned invalidation.now smmu.now policy.now)
        buffer.old buffer.new count.new result }
    ensures buffer { IsKept result buffer.old buffer.new }
    ensures count { IsCountKept result count.old count.new }
{
    match Commands::new(invalidation, smmu, policy) {
        Ok(commands) => give_commands(&commands, buffer, count),
        Err(fault) => fault_status(fault),
    }
}

/// Writes the word of a command, if there is one.
fn give_command(command: Option<Command>, buffer: &mut [Raw], count: &mut usize) -> Status
    ensures { IsGiven (words_of_one command) buffer.old buffer.new count.new result }
{
    let Some(command) = command else {
        *count = 0;
        return Status::Done;
    };
    *count = 1;
    if buffer.is_empty() {
        return Status::ShortBuffer;
    }
    buffer[0] = encode(&command);
    Status::Done
}

fn give_commands(commands: &Commands, buffer: &mut [Raw], count: &mut usize) -> Status
    requires { length (commands_of commands.now) ≤ 2 ^ 32 }
    ensures { AreGiven commands.now buffer.old buffer.new count.new result }
{
    *count = how_many(*commands);
    if buffer.len() < *count {
        return Status::ShortBuffer;
    }
    write_words(*commands, buffer);
    Status::Done
}

fn how_many(mut rest: Commands) -> usize
    requires { length (commands_of rest) ≤ 2 ^ 32 }
    ensures { result ≡ length (commands_of rest) }
{
    let mut count = 0;
    'commands: while let Some(_) = rest.next() {
        count += 1;
    }
    count
}

fn write_words(mut rest: Commands, buffer: &mut [Raw])
    requires { length (commands_of rest) ≤ length buffer.old }
    ensures { (raws : ListOf RawOf) × AreWordsOfAll rest.request.target (commands_of rest) raws
        × (buffer.new ≡ raws ++ drop (length raws) buffer.old) }
{
    let mut place = 0;
    'commands: while let Some(raw) = rest.next_words() {
        buffer[place] = raw;
        place += 1;
    }
}
