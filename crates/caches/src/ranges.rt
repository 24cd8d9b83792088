//! Where in the map a command may cover entries.
ghost use Rattle.std.specs.Prelude.{◌≡◌, ◌<◌, ◌≤◌, ◌+◌, ◌-◌, ◌%◌, ◌^◌, Some, None, true};
ghost use Rattle.std.specs.BTreeMap as tree;
ghost use Rattle.cmdcodec.specs.PageRuns.{run_of};
ghost use Rattle.caches.specs.declared.key.Key.{Key};
ghost use Rattle.caches.specs.Blocks.{block};
ghost use Rattle.caches.specs.Covers.{meets_run};
ghost use Rattle.caches.specs.Keys.{covers_key, owner_of, page_of, span_of, IsOfStreams, IsOfMachines};
ghost use Rattle.caches.specs.Spanned.{AreSpansOf};
ghost use Rattle.caches.specs.Sweep.{IsKeeping, IsPruned, IsWithout};

use crate::covering::aligned;
use crate::indexed_map::IndexedMap;
use crate::key::{Key, Owner};
use crate::rank::Rank;
use crate::spans::Spans;
use crate::sweep::remove_covered;
use crate::walk::sweep_back;
use cmdcodec::{Command, PageRun, Sid};

/// Removes what `command` covers, which must be entries of `streams` only.
fn sweep_streams(map: &mut IndexedMap, streams: PageRun, command: &Command)
    requires keeping { IsKeeping ⟦<Rank as Ord>⟧.cmp map.old.ordered }
    requires begins { streams.first < 2 ^ 32 }
    requires forward { streams.first < streams.end }
    requires reach { (q : Key) → covers_key command.now q ≡ true → IsOfStreams streams q }
    ensures after { IsWithout ⟦<Rank as Ord>⟧.cmp (covers_key command.now) map.old.ordered
        map.new.ordered }
{
    let first = Rank::at(Key::Configuration {
        sid: streams.first as u32,
        ssid: None,
    });
    let end = match u32::try_from(streams.end) {
        Ok(sid) => Rank::at(Key::Configuration { sid, ssid: None }),
        Err(_) => Owner::Guest(0).least(0, 0),
    };
    remove_covered(map, first, end, command);
}

/// Removes what `command` covers, which must be entries of `owner` only.
fn sweep_owner(map: &mut IndexedMap, owner: Owner, command: &Command)
    requires keeping { IsKeeping ⟦<Rank as Ord>⟧.cmp map.old.ordered }
    requires reach { (q : Key) → covers_key command.now q ≡ true → owner_of q ≡ Some owner }
    ensures after { IsWithout ⟦<Rank as Ord>⟧.cmp (covers_key command.now) map.old.ordered
        map.new.ordered }
{
    remove_covered(map, owner.least(0, 0), owner.least(1 << 52, 0), command);
}

/// Removes what `command` covers, which must be translations of virtual machines only.
fn sweep_machines(map: &mut IndexedMap, command: &Command)
    requires keeping { IsKeeping ⟦<Rank as Ord>⟧.cmp map.old.ordered }
    requires reach { (q : Key) → covers_key command.now q ≡ true → IsOfMachines q }
    ensures after { IsWithout ⟦<Rank as Ord>⟧.cmp (covers_key command.now) map.old.ordered
        map.new.ordered }
{
    remove_covered(
        map,
        Owner::Guest(0).least(0, 0),
        Owner::Host.least(0, 0),
        command,
    );
}

/// Returns the first page of the aligned block of `2^span` pages that holds `page`.
pub(crate) fn block_start(page: u64, span: u8) -> u64
    requires { span ≤ 52 }
    ensures { result ≡ page - page % 2 ^ span }
{
    page - page % (1 << span)
}

/// Removes the covered entries that begin before page `first`, for a command that covers only blocks of `owner`
/// that end past it. Those that are there also begin before page `bound`.
///
/// A block begins at a multiple of its length, so one that begins before a page and holds it begins at the
/// page rounded down to a power of two, its length. These starts fall as the powers rise. A start is skipped
/// if no block of that length was put in, or if it isn't before the bound.
fn sweep_before(
    map: &mut IndexedMap,
    spans: &Spans,
    owner: Owner,
    first: u64,
    bound: u64,
    command: &Command,
)
    requires keeping { IsKeeping ⟦<Rank as Ord>⟧.cmp map.old.ordered }
    requires spans { AreSpansOf spans.now ⟦<Rank as Ord>⟧.cmp map.old.ordered }
    requires bound { (q : Key) → covers_key command.now q ≡ true → page_of q < first
        → bound ≤ page_of q → tree.get ⟦<Rank as Ord>⟧.cmp map.old.ordered q ≡ None }
    requires reach { (q : Key) → covers_key command.now q ≡ true
        → (owner_of q ≡ Some owner) × (first < page_of q + 2 ^ span_of q) }
    ensures pruned { IsPruned ⟦<Rank as Ord>⟧.cmp (covers_key command.now) map.old.ordered
        map.new.ordered }
    ensures clean { (q : Key) → covers_key command.now q ≡ true → page_of q < first
        → tree.get ⟦<Rank as Ord>⟧.cmp map.new.ordered q ≡ None }
{
    let mut bound = bound;
    for span in 0..spans.end() {
        if bound == 0 {
            return;
        }
        if !spans.has(span) {
            continue;
        }
        let start = block_start(first, span);
        if start < bound {
            bound = sweep_back(map, owner, first, start + 1, command);
        }
    }
}

/// Removes what `command` covers, which must be blocks of `owner` that meet `run`.
fn sweep_run(map: &mut IndexedMap, spans: &Spans, owner: Owner, run: PageRun, command: &Command)
    requires keeping { IsKeeping ⟦<Rank as Ord>⟧.cmp map.old.ordered }
    requires spans { AreSpansOf spans.now ⟦<Rank as Ord>⟧.cmp map.old.ordered }
    requires reach { (q : Key) → covers_key command.now q ≡ true
        → (owner_of q ≡ Some owner) × (run.first < page_of q + 2 ^ span_of q)
        × (page_of q < run.end) }
    ensures after { IsWithout ⟦<Rank as Ord>⟧.cmp (covers_key command.now) map.old.ordered
        map.new.ordered }
{
    let bound = sweep_back(map, owner, run.first, run.end, command);
    sweep_before(map, spans, owner, run.first, bound, command);
}

/// Removes what `command` covers, which must be blocks of `owner` that meet the command's run.
fn sweep_address(map: &mut IndexedMap, spans: &Spans, owner: Owner, command: &Command)
    requires keeping { IsKeeping ⟦<Rank as Ord>⟧.cmp map.old.ordered }
    requires spans { AreSpansOf spans.now ⟦<Rank as Ord>⟧.cmp map.old.ordered }
    requires reach { (q : Key) → covers_key command.now q ≡ true
        → (owner_of q ≡ Some owner)
        × (meets_run (block (page_of q) (span_of q)) (run_of command.now) ≡ true) }
    ensures after { IsWithout ⟦<Rank as Ord>⟧.cmp (covers_key command.now) map.old.ordered
        map.new.ordered }
{
    if let Some(run) = command.pages() {
        sweep_run(map, spans, owner, run, command);
    }
}

/// The run of a single stream.
fn one_stream(sid: Sid) -> PageRun
    ensures run { result ≡ record { first = sid; end = sid + 1 } }
    ensures in_range { result.first < 2 ^ 32 }
{
    let first = u64::from(sid.get());
    PageRun {
        first,
        end: first + 1,
    }
}

/// Removes what `command` covers. `spans` has the span of every block in the map. Takes no memory.
///
/// If the map is empty it doesn't look at the command, so that a command that is only judged never has to be
/// built.
#[inline]
pub(crate) fn remove_all_covered(map: &mut IndexedMap, spans: &Spans, command: &Command)
    requires keeping { IsKeeping ⟦<Rank as Ord>⟧.cmp map.old.ordered }
    requires spans { AreSpansOf spans.now ⟦<Rank as Ord>⟧.cmp map.old.ordered }
    ensures after { IsWithout ⟦<Rank as Ord>⟧.cmp (covers_key command.now) map.old.ordered
        map.new.ordered }
{
    if !map.ordered.is_empty() {
        sweep_covered(map, spans, command);
    }
}

/// The same for a map that may hold entries.
#[inline(never)]
fn sweep_covered(map: &mut IndexedMap, spans: &Spans, command: &Command)
    requires keeping { IsKeeping ⟦<Rank as Ord>⟧.cmp map.old.ordered }
    requires spans { AreSpansOf spans.now ⟦<Rank as Ord>⟧.cmp map.old.ordered }
    ensures after { IsWithout ⟦<Rank as Ord>⟧.cmp (covers_key command.now) map.old.ordered
        map.new.ordered }
{
    match *command {
        Command::CfgiSte { sid, .. } | Command::CfgiCd { sid, .. } | Command::CfgiCdAll { sid } =>
            sweep_streams(map, one_stream(sid), command),
        Command::CfgiSteRange { sid, range } => {
            let streams = aligned(u64::from(sid.get()), range.get() + 1);
            sweep_streams(map, streams, command)
        }
        Command::TlbiNhAll { vmid }
        | Command::TlbiNhAsid { vmid, .. }
        | Command::TlbiS12Vmall { vmid } => sweep_owner(map, Owner::Guest(vmid.get()), command),
        Command::TlbiNhVa { vmid, .. }
        | Command::TlbiNhVaa { vmid, .. }
        | Command::TlbiS2Ipa { vmid, .. } => {
            sweep_address(map, spans, Owner::Guest(vmid.get()), command)
        }
        Command::TlbiEl2All | Command::TlbiEl2Asid { .. } => sweep_owner(map, Owner::Host, command),
        Command::TlbiEl2Va { .. } | Command::TlbiEl2Vaa { .. } => {
            sweep_address(map, spans, Owner::Host, command)
        }
        Command::TlbiNsnhAll => sweep_machines(map, command),
        Command::AtcInv {
            sid,
            size,
            page,
            ..
        } => {
            let pages = aligned(page.get(), size.get());
            sweep_run(map, spans, Owner::Device(sid.get()), pages, command)
        }
        Command::Kept(_) | Command::CmdSync { .. } => {}
    }
}
