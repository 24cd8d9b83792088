//! The commands that invalidate a run of pages.
ghost use Rattle.std.specs.Prelude.{◌≡◌, ◌<◌, ◌≤◌, ◌+◌, ◌^◌, ◌++◌, OnOk, OnErr, true, false, length, map, take};
ghost use Rattle.std.specs.List.{list_any};
ghost use Rattle.cmdcodec.specs.declared.command.Command.TheVariants.{TlbiNhVa};
ghost use Rattle.cmdcodec.specs.Words.{encoding};
ghost use Rattle.cmdcodec.specs.Opcodes.{is_sync};
ghost use Rattle.cmdcodec.specs.Bodies.{IsBody};
ghost use Rattle.batch.specs.Ranges.{scale_of, count_of, reached_of, reach_of, range_commands};
ghost use Rattle.batch.specs.Refusals.{unless, room_refusal, range_refusal};

use crate::body::Commands;
use crate::fault::BatchFault;
use cmdcodec::{Asid, Command, Granule, Page, RangeCount, RangeScale, Reach, Vmid, encode};

/// The number of pages in an address space.
const ALL_PAGES: u64 = 1 << 52;

/// The greatest `SCALE`.
const MOST_SCALE: u32 = 31;

/// The most steps of `2^SCALE` pages in a command: the greatest `NUM` plus one.
const MOST_STEPS: u64 = 32;

/// Appends the commands that invalidate `pages` pages from `page` on, or nothing if there is an error: the
/// first of B3, B4 and B1 that applies.
pub(crate) fn append_range(
    commands: &mut Commands,
    vmid: Vmid,
    asid: Asid,
    page: Page,
    pages: u64,
) -> Result<(), BatchFault>
    ensures answer { result ≡ unless (range_refusal commands.old.items vmid asid page pages) tt }
    ensures appended { OnOk result (commands.new.items ≡ commands.old.items ++ map encoding (range_commands vmid asid page pages)) }
    ensures unchanged { OnErr result (commands.new.items ≡ commands.old.items) }
    ensures body { OnOk result (list_any is_sync commands.old.items ≡ false → IsBody commands.new.items) }
{
    if pages == 0 {
        return Err(BatchFault::NoPages);
    }
    if pages > ALL_PAGES - page.get() {
        return Err(BatchFault::PastEnd);
    }
    let held = commands.len();
    match append_commands(commands, vmid, asid, page.get(), pages) {
        Ok(()) => Ok(()),
        Err(fault) => {
            commands.truncate(held);
            Err(fault)
        }
    }
}

/// Appends the commands for `pages` pages from `first` on as far as there is room; B1 if there isn't enough.
fn append_commands(
    commands: &mut Commands,
    vmid: Vmid,
    asid: Asid,
    first: u64,
    pages: u64,
) -> Result<(), BatchFault>
    requires in_range { first + pages ≤ 2 ^ 52 }
    requires few { length commands.old.items ≤ 63 }
    ensures answer { result ≡ unless (room_refusal commands.old.items (length (range_commands vmid asid first pages))) tt }
    ensures appended { OnOk result (commands.new.items ≡ commands.old.items ++ map encoding (range_commands vmid asid first pages)) }
    ensures kept { take (length commands.old.items) commands.new.items ≡ commands.old.items }
    ensures body { OnOk result (0 < pages → list_any is_sync commands.old.items ≡ false → IsBody commands.new.items) }
{
    let (mut page, mut left) = (first, pages);
    'pages: while left > 0 {
        if commands.is_full() {
            return Err(BatchFault::Full);
        }
        commands.push(encode(&next_command(vmid, asid, page, left)));
        let reached = reached_of(left);
        page += reached;
        left -= reached;
    }
    Ok(())
}

/// The next command for `pages` pages from `page` on.
fn next_command(vmid: Vmid, asid: Asid, page: u64, pages: u64) -> Command
    requires in_range { page < 2 ^ 52 }
    requires some { 0 < pages }
    ensures { result ≡ TlbiNhVa vmid asid true page (reach_of pages) }
{
    Command::TlbiNhVa {
        vmid,
        asid,
        leaf: true,
        page: Page::new(page).unwrap(),
        reach: reach_of(pages),
    }
}

/// How far the next command reaches.
#[tactic(auto, unfolding(crate::specs::Ranges::reach_of, crate::specs::Ranges::reached_of))]
fn reach_of(pages: u64) -> Reach
    requires { 0 < pages }
    ensures { result ≡ reach_of pages }
{
    if reached_of(pages) == 1 {
        return Reach::Page;
    }
    Reach::Range {
        tg: Granule::Kib4,
        num: RangeCount::new(count_of(pages) - 1).unwrap(),
        scale: RangeScale::new(u64::from(scale_of(pages))).unwrap(),
    }
}

/// How many pages the next command reaches.
#[tactic(auto, unfolding(crate::specs::Ranges::reached_of), using(crate::proofs::RangeLemmas::reached_within))]
fn reached_of(pages: u64) -> u64
    requires { 0 < pages }
    ensures value { result ≡ reached_of pages }
    ensures some { 0 < result }
    ensures within { result ≤ pages }
{
    count_of(pages) << scale_of(pages)
}

/// How many steps of `2^SCALE` pages the next command has.
#[tactic(auto, unfolding(crate::specs::Ranges::count_of))]
fn count_of(pages: u64) -> u64
    ensures value { result ≡ count_of pages }
    ensures some { 0 < result }
    ensures few { result ≤ 32 }
{
    match (pages >> scale_of(pages)) % MOST_STEPS {
        0 => MOST_STEPS,
        count => count,
    }
}

/// `SCALE` of the next command.
#[tactic(auto, unfolding(crate::specs::Ranges::scale_of))]
fn scale_of(pages: u64) -> u32
    ensures value { result ≡ scale_of pages }
    ensures in_range { result ≤ 31 }
{
    pages.trailing_zeros().min(MOST_SCALE)
}
