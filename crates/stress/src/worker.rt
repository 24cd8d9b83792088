//! A sender that follows its plan.
ghost use Rattle.std.specs.Prelude.{◌≡◌, ◌<◌, ◌+◌, ◌≤◌, if◌then◌else◌};
ghost use Rattle.stress.specs.Plans.{IsPlan};
ghost use Rattle.stress.specs.Workers.{assignment, assignment_of, is_sent, HasSent, HasTriedNext, HasWorked};

use crate::attempt::{Attempt, send_once};
use crate::gate::Gate;
use crate::plan::Plan;
use ring::{Ring, Sender};
use std::marker::Model;

/// A sender, with its plan and how many of its batches it has sent.
#[derive(Drop)]
pub(crate) struct Worker {
    pub(crate) plan: Plan,
    pub(crate) sender: Sender,
    pub(crate) sent: u32,
}

impl Model for Worker {
    ghost use Rattle.stress.specs.Workers.{WorkerValue, IsOnPlan};

    ghost Value = { WorkerValue };

    ghost view = { λ w. record { plan = w.plan; sender = w.sender; sent = w.sent } };

    ghost invariant = { λ w. IsOnPlan w.plan w.sender w.sent };
}

impl Worker {
    /// How many of its batches are left.
    pub(crate) fn left(&self) -> u32
        ensures { result + self.now.sent ≡ self.now.plan.batches }
    {
        self.plan.batches() - self.sent
    }

    /// Returns the sender, once all is sent.
    pub(crate) fn into_sender(self) -> Sender
        requires { self.sent ≡ self.plan.batches }
        ensures assignment { assignment_of self.plan result ≡ assignment self }
        ensures sent { HasSent self.plan result }
    {
        let Worker {
            plan: _,
            sender,
            sent: _,
        } = self;
        sender
    }

    /// Tries once to send its next batch.
    pub(crate) fn try_next(self, ring: &Ring) -> (Worker, Attempt)
        requires ring { self.sender.ring ≡ ring.now }
        requires left { self.sent < self.plan.batches }
        ensures assignment { assignment result.0 ≡ assignment self }
        ensures sent { result.0.sent ≡ (if is_sent result.1 then self.sent + 1 else self.sent) }
        ensures tried { HasTriedNext self result.0 result.1 }
    {
        let Worker { plan, sender, sent } = self;
        let next = sent + 1;
        let batch = plan.batch(sender.id(), next);
        let (sender, attempt) = send_once(sender, ring, &batch, plan.closes(next));
        let sent = if attempt.is_sent() { next } else { sent };
        let worker = Worker { plan, sender, sent };
        (worker, attempt)
    }

    /// Sends as many of its batches as its turns allow.
    pub(crate) fn run<G: Gate>(self, ring: &Ring, gate: &G) -> Worker
        requires { self.sender.ring ≡ ring.now }
        ensures assignment { assignment result ≡ assignment self }
        ensures worked { HasWorked self result }
    {
        let mut worker = self;
        let id = worker.sender.id();
        let mut is_first_try = true;
        for _ in 0..worker.plan.turns() {
            if worker.left() == 0 {
                return worker;
            }
            if is_first_try {
                gate.before(id, worker.sent + 1);
            }
            let (next, attempt) = worker.try_next(ring);
            worker = next;
            is_first_try = attempt.is_sent();
            if is_first_try {
                gate.after(id, worker.sent, attempt.receipt());
            }
        }
        if !is_first_try {
            gate.after(id, worker.sent + 1, None);
        }
        worker
    }
}
