//! The result of a run.
ghost use Rattle.std.specs.Prelude.{◌≡◌, IfOk, OnErr, Err, string_bytes};
ghost use Rattle.std.specs.FinMap as finite;
ghost use Rattle.stress.specs.ReportText.{report_text};

use crate::fault::StressFault;
use crate::plan::Plan;
use crate::telling::say_report;
use engine::{Counts, Finished};
use ring::Summary;
use std::alloc::Global;
use std::marker::Model;

/// The result of a run: the ring's summary and the engine's counts, how many entries the caches hold at the end, and
/// what each sender's completion cell said.
#[derive(Drop)]
pub struct Report {
    plan: Plan,
    summary: Summary,
    counts: Counts,
    entries: usize,
    done: Vec<u32>,
}

impl Model for Report {
    ghost use Rattle.std.specs.Prelude.{◌≤◌};
    ghost use Rattle.stress.specs.Reports.{ReportValue};

    ghost Value = { ReportValue };

    ghost view = { λ r. record { plan = r.plan; summary = r.summary; counts = r.counts; entries = r.entries; done = r.done.items } };
}

impl Report {
    /// Returns the report of a plan, given what is left of its engine and its ring.
    pub(crate) fn new(plan: Plan, finished: Finished, done: Vec<u32>) -> Report
        ensures { result
            ≡ record {
              plan = plan;
              summary = finished.summary;
              counts = finished.counts;
              entries =
                  finite.len finished.caches.entries;
              done = done.items;
            } }
    {
        let entries = finished.caches.len();
        Report {
            plan,
            summary: finished.summary,
            counts: finished.counts,
            entries,
            done,
        }
    }

    /// The plan.
    pub fn plan(&self) -> Plan
        ensures { result ≡ self.now.plan }
    {
        self.plan
    }

    /// What was reserved and taken, and whether the ring was closed.
    pub fn summary(&self) -> Summary
        ensures { result ≡ self.now.summary }
    {
        self.summary
    }

    /// The engine's counts of the commands taken.
    pub fn counts(&self) -> Counts
        ensures { result ≡ self.now.counts }
    {
        self.counts
    }

    /// How many entries the caches hold at the end.
    pub fn entries(&self) -> usize
        ensures { result ≡ self.now.entries }
    {
        self.entries
    }

    /// What each sender's completion cell said at the end, in the order of the senders: how many of its batches with a
    /// CMD_SYNC had completed, from the first on. It needn't be all of them.
    pub fn done(&self) -> &[u32]
        ensures { result.now ≡ self.now.done }
    {
        self.done.as_slice()
    }

    /// Its lines.
    ///
    /// Errors: S1.
    pub fn text(&self, alloc: Global) -> Result<String, StressFault>
        ensures lines { IfOk result (λ text. string_bytes text ≡ report_text self.now) }
        ensures err { OnErr result (result ≡ Err StressFault.NoMemory) }
    {
        let mut text = String::new(alloc);
        if say_report(self, &mut text).is_err() {
            return Err(StressFault::NoMemory);
        }
        Ok(text)
    }
}
