//! Calls of the tracked engine that tests begin with.
ghost use Rattle.std.specs.Prelude.{◌≡◌};

use caches::Tag;
use cmdcodec::{Raw, Sid};
use std::process::Abort;
use tracked_engine::TrackedEngine;
use transactions::{Ended, Transaction};

/// CMD_CFGI_STE of stream 5 with Leaf 1.
pub const STE: Raw = Raw {
    lo: 0x0000_0005_0000_0003,
    hi: 1,
};

pub fn stream(rt: &impl Abort, number: u64) -> Tag {
    let sid = Sid::new(number).expect(rt, "a stream");
    Tag::Ste { sid }
}

pub fn begin(rt: &impl Abort, engine: &mut TrackedEngine, tag: &Tag) -> Transaction
    ensures { engine.new.consumer ≡ engine.old.consumer }
{
    match engine.begin(tag) {
        Ok((_, transaction)) => transaction,
        Err(_) => panic!(rt; "it doesn't begin"),
    }
}

pub fn end(rt: &impl Abort, engine: &mut TrackedEngine, transaction: Transaction) -> Ended
    ensures { engine.new.consumer ≡ engine.old.consumer }
{
    match engine.end(transaction) {
        Ok(ended) => ended,
        Err(_back) => panic!(rt; "it isn't outstanding here"),
    }
}
