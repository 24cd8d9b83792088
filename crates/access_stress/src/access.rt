//! A device's access to an address.
ghost use Rattle.std.specs.Prelude.{◌≡◌};

use crate::pages::{Pages, tag_of};
use crate::report::Report;
use tracked_engine::TrackedEngine;
use transactions::Transaction;

/// When the transaction of an access ends.
#[derive(Clone, Copy)]
pub(crate) enum Ending {
    AfterAccess,
    /// When the access begins, so that no CMD_SYNC waits for it: a fault.
    Early,
}

/// An access that hasn't ended: the page that it was translated to, and its transaction if that is outstanding.
pub(crate) struct Access {
    place: u32,
    page: u64,
    transaction: Option<Transaction>,
}

/// An access begins, with what is held or with what a walk reads. None if it can't begin.
pub(crate) fn begin(
    engine: &mut TrackedEngine,
    pages: &Pages,
    place: u32,
    ending: Ending,
    report: &mut Report,
) -> Option<Access>
    ensures { engine.new.consumer ≡ engine.old.consumer }
{
    let (page, transaction) = translate(engine, pages, place, report)?;
    let transaction = match ending {
        Ending::AfterAccess => Some(transaction),
        Ending::Early => {
            end_transaction(engine, transaction, report);
            None
        }
    };
    Some(Access {
        place,
        page,
        transaction,
    })
}

/// The page of an address and a transaction that began with it.
fn translate(
    engine: &mut TrackedEngine,
    pages: &Pages,
    place: u32,
    report: &mut Report,
) -> Option<(u64, Transaction)>
    ensures { engine.new.consumer ≡ engine.old.consumer }
{
    match engine.begin(&tag_of(place)) {
        Ok((entry, transaction)) => Some((entry.value, transaction)),
        Err(_) => {
            report.walks = report.walks.saturating_add(1);
            walk(engine, pages, place)
        }
    }
}

/// The page that a walk reads and a transaction that began with it. None if the walk was overtaken.
fn walk(engine: &mut TrackedEngine, pages: &Pages, place: u32) -> Option<(u64, Transaction)>
    ensures { engine.new.consumer ≡ engine.old.consumer }
{
    let tag = tag_of(place);
    let walk = engine.begin_walk();
    let page = pages.mapped(place);
    let _ = engine.fill_walked(walk, tag, page);
    match engine.begin_walked(walk, &tag) {
        Ok(transaction) => Some((page, transaction)),
        Err(_) => None,
    }
}

/// An access uses its page and ends. If its transaction ended before, the page may be free by now.
pub(crate) fn end(engine: &mut TrackedEngine, pages: &Pages, access: Access, report: &mut Report)
    ensures { engine.new.consumer ≡ engine.old.consumer }
{
    let Access {
        place,
        page,
        transaction,
    } = access;
    report.accesses = report.accesses.saturating_add(1);
    if pages.is_free(place, page) {
        report.of_free_pages = report.of_free_pages.saturating_add(1);
    }
    match transaction {
        Some(transaction) => end_transaction(engine, transaction, report),
        None => {}
    }
}

fn end_transaction(engine: &mut TrackedEngine, transaction: Transaction, report: &mut Report)
    ensures { engine.new.consumer ≡ engine.old.consumer }
{
    match engine.end(transaction) {
        Ok(_) => {}
        Err(back) => {
            back.into_bits();
            report.unknown = report.unknown.saturating_add(1);
        }
    }
}
