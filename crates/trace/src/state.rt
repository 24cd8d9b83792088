//! A log between two of its lines.
ghost use Rattle.std.specs.Prelude.{◌≡◌, [], IfOk, Ok};
ghost use Rattle.trace.specs.declared.request.Request.TheVariants.{Walk as WalkOf, Fill as FillOf};
ghost use Rattle.trace.specs.declared.request.Request.TheVariants.{Use as UseOf, End as EndOf};
ghost use Rattle.trace.specs.declared.request.Request.TheVariants.{Did as DidOf};
ghost use Rattle.transactions.specs.Tracking.{IsTracked};
ghost use Rattle.trace.specs.declared.reply.Reply.{Reply as ReplyOf};
ghost use Rattle.trace.specs.Serving.{Does};
ghost use Rattle.trace.specs.Logs.{IsToldAs, told};
ghost use Rattle.trace.specs.Traces.{new_trace, IsPlaceOf};

use crate::access::{OpenAccess, place_of};
use crate::log_fault::LogFault;
use crate::reply::Reply;
use crate::request::{Conduct, Request};
use crate::walking::{OpenWalk, walk_of};
use caches::{CacheFault, Caches, MOST_ENTRIES, Tag};
use std::alloc::{AllocError, Global};
use std::marker::Model;
use transactions::{BeginFault, TrackedUnit, WalkFault};

/// How many accesses may be open (own).
const MOST_ACCESSES: u16 = 1024;

/// How many walks are known, the last ones (own).
const MOST_WALKS: usize = 1024;

/// What is kept between two lines of a log.
pub(crate) struct Trace {
    pub(crate) unit: TrackedUnit,
    walks: Vec<OpenWalk>,
    accesses: Vec<OpenAccess>,
    /// What the model should have done with the line before.
    right: Option<Conduct>,
}

impl Model for Trace {
    ghost use Rattle.std.specs.Coded.{codes};
    ghost use Rattle.caches.specs.Stored.{stored_code};
    ghost use Rattle.trace.specs.Accesses.{AreOf};
    ghost use Rattle.trace.specs.Traces.{TraceValue};

    ghost Value = { TraceValue };

    ghost coded = { Prim.hlevel (codes, stored_code) };

    ghost view = { λ t. record {
      unit = t.unit;
      walks = t.walks.items;
      accesses = t.accesses.items;
      right = t.right;
    } };

    ghost invariant = { λ t. AreOf t.unit t.accesses.items };
}

impl Trace {
    /// Nothing happened yet: the caches are empty, with room for 65,536 entries.
    pub(crate) fn new(alloc: Global) -> Result<Trace, AllocError>
        ensures new { IfOk result (λ t. t ≡ new_trace) }
        ensures tracked { IfOk result (λ t. IsTracked t.unit []) }
    {
        let caches = Caches::new(alloc, MOST_ENTRIES).unwrap();
        let unit = TrackedUnit::new(alloc, 0, caches, MOST_ACCESSES)?;
        Ok(Trace {
            unit,
            walks: Vec::new(alloc),
            accesses: Vec::new(alloc),
            right: None,
        })
    }

    /// Serves what a line says, and keeps what the model should have done with it.
    pub(crate) fn serve(&mut self, request: &Request) -> Result<Reply, LogFault>
        ensures { IsToldAs request.now self.old result self.new }
    {
        match self.serve_plain(request) {
            Ok(reply) => {
                self.note_right(&reply);
                Ok(reply)
            }
            Err(fault) => Err(fault),
        }
    }

    /// Keeps what the model should have done with a line that was answered so.
    fn note_right(&mut self, reply: &Reply)
        ensures { self.new ≡ told reply.now self.old }
    {
        let before = self.right;
        self.right = reply.right_after(before);
    }

    /// Serves what a line says.
    fn serve_plain(&mut self, request: &Request) -> Result<Reply, LogFault>
        ensures { Does request.now self.old result self.new }
    {
        match *request {
            Request::Nothing => Ok(Reply::Nothing),
            Request::Walk { number } => self.walk(number),
            Request::Fill { number, tag, value } => self.fill(number, tag, value),
            Request::Use { number, tag } => self.begin(number, tag),
            Request::End { number } => self.end(number),
            Request::Command(raw) => self.command(raw),
            Request::Acknowledge { gerrorn, remedy } => self.acknowledge(gerrorn, remedy),
            Request::Did(conduct) => self.judge_conduct(conduct),
        }
    }

    /// A walk begins.
    fn walk(&mut self, number: u64) -> Result<Reply, LogFault>
        ensures { Does (WalkOf number) self.old result self.new }
    {
        let walk = self.unit.begin_walk();
        if self.walks.insert(0, OpenWalk { number, walk }).is_err() {
            return Err(LogFault::Memory);
        }
        self.walks.truncate(MOST_WALKS);
        Ok(Reply::Walking)
    }

    /// What a walk read is filled.
    fn fill(&mut self, number: u64, tag: Tag, value: u64) -> Result<Reply, LogFault>
        ensures { Does (FillOf number tag value) self.old result self.new }
    {
        let Some(walk) = walk_of(number, &self.walks) else {
            return Err(LogFault::NoWalk);
        };
        match self.unit.fill_walked(walk, tag, value) {
            Ok(_) => Ok(Reply::Filled),
            Err(WalkFault::Refused(CacheFault::NoMemory)) => Err(LogFault::Memory),
            Err(fault) => Ok(Reply::NotFilled(fault)),
        }
    }

    /// Judges what the model did with the line before.
    fn judge_conduct(&mut self, conduct: Conduct) -> Result<Reply, LogFault>
        ensures { Does (DidOf conduct) self.old result self.new }
    {
        let right = self.right;
        match right {
            None => Ok(Reply::Unjudged),
            Some(right) if right == conduct => Ok(Reply::Right),
            Some(right) => Err(LogFault::Wrong(right)),
        }
    }
}

impl Trace {
    /// An access begins with the entry that is held.
    fn begin(&mut self, number: u64, tag: Tag) -> Result<Reply, LogFault>
        ensures { Does (UseOf number tag) self.old result self.new }
    {
        if let Some(_place) = place_of(number, &self.accesses) {
            return Err(LogFault::AccessOpen);
        }
        if self.accesses.reserve(1).is_err() {
            return Err(LogFault::Memory);
        }
        match self.unit.begin(&tag) {
            Ok((entry, transaction)) => {
                let access = OpenAccess {
                    number,
                    transaction,
                };
                match self.accesses.insert(0, access) {
                    Ok(()) => Ok(Reply::Using { value: entry.value }),
                    Err(_no_room) => unreachable!(),
                }
            }
            Err(BeginFault::NotHeld) => Ok(Reply::NotHeld),
            Err(BeginFault::Full) => Err(LogFault::TooManyAccesses),
            Err(BeginFault::Walked(_)) => unreachable!(),
        }
    }

    /// An access is over.
    fn end(&mut self, number: u64) -> Result<Reply, LogFault>
        ensures { Does (EndOf number) self.old result self.new }
    {
        let Some(place) = place_of(number, &self.accesses) else {
            return Err(LogFault::NoAccess);
        };
        self.end_at(place, number);
        Ok(Reply::Ended)
    }

    /// Ends the access at a place.
    fn end_at(&mut self, place: usize, number: u64)
        requires { IsPlaceOf number self.old.accesses place }
        ensures { Does (EndOf number) self.old (Ok Reply.Ended) self.new }
    {
        let OpenAccess {
            number: _,
            transaction,
        } = self.accesses.remove(place);
        match self.unit.end(transaction) {
            Ok(_) => {}
            Err(_back) => unreachable!(),
        }
    }

    /// Ends all accesses that aren't over: the log is.
    pub(crate) fn finish(self) {
        let Trace {
            mut unit,
            walks: _,
            mut accesses,
            right: _,
        } = self;
        'accesses: while !accesses.is_empty() {
            let OpenAccess {
                number: _,
                transaction,
            } = accesses.remove(0);
            match unit.end(transaction) {
                Ok(_) => {}
                Err(_back) => unreachable!(),
            }
        }
        accesses.destroy_empty();
    }
}
