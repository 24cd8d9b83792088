//! Whether a command covers a tag.
ghost use Rattle.std.specs.Prelude.{◌≡◌, ◌<◌, ◌≤◌, ◌^◌};
ghost use Rattle.cmdcodec.specs.declared.reach.PageRun.{PageRun};
ghost use Rattle.caches.specs.Blocks.{IsBlock, block, aligned, holds, meets};
ghost use Rattle.cmdcodec.specs.PageRuns.{run_of};
ghost use Rattle.caches.specs.Covers.{covers, is_of, reaches, is_for, meets_run};
ghost use Rattle.caches.specs.declared.tag.Tag.TheVariants.{Ste, Cd, S1, S2, El2, Atc};

use crate::tag::{Scope, Tag};
use cmdcodec::{Asid, Command, Page, PageRun, Sid, Ssid, Vmid};

/// The block of `2^span` pages that starts at `page`.
fn block(page: Page, span: u8) -> PageRun
    requires { span ≤ 52 }
    ensures { result ≡ block page span }
{
    PageRun {
        first: page.get(),
        end: page.get() + (1 << span),
    }
}

/// The aligned block of `2^power` numbers that holds `number`.
pub(crate) fn aligned(number: u64, power: u8) -> PageRun
    requires power { power ≤ 52 }
    requires number { number < 2 ^ 52 }
    ensures block { result ≡ aligned number (2 ^ power) }
    ensures begins { result.first ≤ number }
    ensures forward { result.first < result.end }
{
    let size = 1 << power;
    let first = number / size * size;
    PageRun {
        first,
        end: first + size,
    }
}

fn meets(a: PageRun, b: PageRun) -> bool
    ensures { result ≡ meets a b }
{
    a.first < b.end && b.first < a.end
}

fn holds(run: PageRun, number: u64) -> bool
    ensures { result ≡ holds run number }
{
    run.first <= number && number < run.end
}

impl Scope {
    fn is_of(self, asid: Asid) -> bool
        ensures { result ≡ is_of asid self }
    {
        match self {
            Scope::Global => false,
            Scope::Of(own) => own == asid,
        }
    }

    fn reaches(self, asid: Asid) -> bool
        ensures { result ≡ reaches asid self }
    {
        match self {
            Scope::Global => true,
            Scope::Of(own) => own == asid,
        }
    }
}

fn is_for(ssv: bool, ssid: Ssid, global: bool, other: Option<Ssid>) -> bool
    ensures { result ≡ is_for ssv ssid global other }
{
    match other {
        None => !ssv,
        Some(other) => !ssv || global || other == ssid,
    }
}

fn meets_run(command: &Command, pages: PageRun) -> bool
    ensures { result ≡ meets_run pages (run_of command.now) }
{
    match command.pages() {
        None => false,
        Some(run) => meets(pages, run),
    }
}

fn covers_ste(command: &Command, sid: Sid) -> bool
    ensures { result ≡ covers command.now (Ste sid) }
{
    match *command {
        Command::CfgiSte { sid: of, .. } => sid == of,
        Command::CfgiSteRange { sid: of, range } => holds(
            aligned(of.get() as u64, range.get() + 1),
            sid.get() as u64,
        ),
        _ => false,
    }
}

fn covers_cd(command: &Command, sid: Sid, ssid: Ssid) -> bool
    ensures { result ≡ covers command.now (Cd sid ssid) }
{
    match *command {
        Command::CfgiSte { .. } | Command::CfgiSteRange { .. } => covers_ste(command, sid),
        Command::CfgiCd {
            sid: of,
            ssid: own,
            ..
        } => sid == of && ssid == own,
        Command::CfgiCdAll { sid: of } => sid == of,
        _ => false,
    }
}

fn covers_s1(command: &Command, vmid: Vmid, scope: Scope, page: Page, span: u8) -> bool
    requires { span ≤ 52 }
    ensures { result ≡ covers command.now (S1 vmid scope page span) }
{
    match *command {
        Command::TlbiNhAll { vmid: of } | Command::TlbiS12Vmall { vmid: of } => vmid == of,
        Command::TlbiNhAsid { vmid: of, asid } => vmid == of && scope.is_of(asid),
        Command::TlbiNhVa { vmid: of, asid, .. } => {
            vmid == of && scope.reaches(asid) && meets_run(command, block(page, span))
        }
        Command::TlbiNhVaa { vmid: of, .. } => {
            vmid == of && meets_run(command, block(page, span))
        }
        Command::TlbiNsnhAll => true,
        _ => false,
    }
}

fn covers_s2(command: &Command, vmid: Vmid, page: Page, span: u8) -> bool
    requires { span ≤ 52 }
    ensures { result ≡ covers command.now (S2 vmid page span) }
{
    match *command {
        Command::TlbiS12Vmall { vmid: of } => vmid == of,
        Command::TlbiS2Ipa { vmid: of, .. } => {
            vmid == of && meets_run(command, block(page, span))
        }
        Command::TlbiNsnhAll => true,
        _ => false,
    }
}

fn covers_el2(command: &Command, scope: Scope, page: Page, span: u8) -> bool
    requires { span ≤ 52 }
    ensures { result ≡ covers command.now (El2 scope page span) }
{
    match *command {
        Command::TlbiEl2All => true,
        Command::TlbiEl2Asid { asid } => scope.is_of(asid),
        Command::TlbiEl2Va { asid, .. } => {
            scope.reaches(asid) && meets_run(command, block(page, span))
        }
        Command::TlbiEl2Vaa { .. } => meets_run(command, block(page, span)),
        _ => false,
    }
}

fn covers_atc(command: &Command, sid: Sid, ssid: Option<Ssid>, page: Page, span: u8) -> bool
    requires { span ≤ 52 }
    ensures { result ≡ covers command.now (Atc sid ssid page span) }
{
    match *command {
        Command::AtcInv {
            sid: of,
            ssv,
            ssid: own,
            global,
            size,
            page: at,
        } => {
            sid == of
                && is_for(ssv, own, global, ssid)
                && meets(block(page, span), aligned(at.get(), size.get()))
        }
        _ => false,
    }
}

/// Whether `command` covers `tag`.
///
/// Inlined into both walks, since each asks it of every entry that it meets.
#[inline(always)]
pub fn covers(command: &Command, tag: &Tag) -> bool
    requires { IsBlock tag.now }
    ensures { result ≡ covers command.now tag.now }
{
    match *tag {
        Tag::Ste { sid } => covers_ste(command, sid),
        Tag::Cd { sid, ssid } => covers_cd(command, sid, ssid),
        Tag::S1 {
            vmid,
            scope,
            page,
            span,
        } => covers_s1(command, vmid, scope, page, span),
        Tag::S2 { vmid, page, span } => covers_s2(command, vmid, page, span),
        Tag::El2 { scope, page, span } => covers_el2(command, scope, page, span),
        Tag::Atc {
            sid,
            ssid,
            page,
            span,
        } => covers_atc(command, sid, ssid, page, span),
    }
}
