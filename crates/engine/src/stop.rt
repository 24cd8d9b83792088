//! The stop at an illegal command.
ghost use Rattle.std.specs.Prelude.{◌≡◌, ◌↔◌, IsTrue, OnOk, OnErr, Some};
ghost use Rattle.cmdcodec.specs.Legality.{first_ill};
ghost use Rattle.engine.specs.Stops.{unstopped, IsStopped, IsAcknowledgementAnswer, stopped_at, gone_on, acknowledged_by, mode_after, err_of, word_of, IsKept, IsActive};

use crate::global_errors::{command_queue_bit, word_of};
use crate::remedy::{AckFault, Remedy};
use cmdcodec::{Ill, Raw};
use std::marker::Model;

/// The state of consumption.
#[derive(Clone, Copy, Debug, PartialEq, Eq)]
pub enum Mode {
    Running,
    /// Stopped at an illegal command: SMMU_CMDQ_CONS.ERR is CERROR_ILL.
    Stopped(Ill),
    /// Told to replace the illegal command.
    Replacing,
}

impl From<Remedy> for Mode {
    fn from(remedy: Remedy) -> Mode
        ensures { result ≡ mode_after remedy }
    {
        match remedy {
            Remedy::Retry => Mode::Running,
            Remedy::Replace => Mode::Replacing,
        }
    }
}

/// The state of consumption, and CMDQ_ERR of both registers.
#[derive(Drop)]
pub struct Stop {
    mode: Mode,
    /// The words at which it stopped, until they are taken.
    next: Option<Raw>,
    /// CMDQ_ERR of SMMU_GERROR.
    error: bool,
    /// CMDQ_ERR of SMMU_GERRORN.
    acknowledged: bool,
}

impl Model for Stop {
    ghost use Rattle.engine.specs.Stops.{StopValue, IsStop};

    ghost Value = { StopValue };

    ghost view = { λ s. record { mode = s.mode; next = s.next; error = s.error; acknowledged = s.acknowledged } };

    ghost invariant = { λ s. IsStop (record { mode = s.mode; next = s.next; error = s.error; acknowledged = s.acknowledged }) };
}

impl Stop {
    /// The state before the first command.
    pub(crate) fn new() -> Stop
        ensures { result ≡ unstopped }
    {
        Stop {
            mode: Mode::Running,
            next: None,
            error: false,
            acknowledged: false,
        }
    }

    pub(crate) fn is_stopped(&self) -> bool
        ensures { IsTrue result ↔ IsStopped self.now.mode }
    {
        matches!(self.mode, Mode::Stopped(_))
    }

    /// Whether the command that comes next is to be replaced.
    pub(crate) fn is_replacing(&self) -> bool
        ensures value { IsTrue result ↔ (self.now.mode ≡ Mode.Replacing) }
        ensures kept { IsKept self.now.mode self.now.next }
    {
        matches!(self.mode, Mode::Replacing)
    }

    /// Returns the words at which it stopped, until they are taken.
    pub(crate) fn awaited(&self) -> Option<Raw>
        ensures value { result ≡ self.now.next }
        ensures kept { IsKept self.now.mode self.now.next }
    {
        self.next
    }

    /// Stops at an illegal command.
    pub(crate) fn stop_at(&mut self, raw: Raw, ill: Ill)
        requires going { ¬ IsStopped self.old.mode }
        requires first { first_ill raw ≡ Some ill }
        ensures { self.new ≡ stopped_at raw ill self.old }
    {
        self.mode = Mode::Stopped(ill);
        self.next = Some(raw);
        self.error = !self.error;
    }

    /// Goes on after a command was taken.
    pub(crate) fn go_on(&mut self)
        requires going { ¬ IsStopped self.old.mode }
        ensures { self.new ≡ gone_on self.old }
    {
        self.mode = Mode::Running;
        self.next = None;
    }

    /// Software writes SMMU_GERRORN and chooses what happens to the command.
    pub(crate) fn acknowledge(&mut self, gerrorn: u32, remedy: Remedy) -> Result<(), AckFault>
        ensures answer { IsAcknowledgementAnswer self.old gerrorn result }
        ensures ok { OnOk result (self.new ≡ acknowledged_by remedy self.old) }
        ensures err { OnErr result (self.new ≡ self.old) }
    {
        if !self.is_stopped() {
            return Err(AckFault::NoError);
        }
        if command_queue_bit(gerrorn) != self.error {
            return Err(AckFault::OtherBit);
        }
        self.go_on_with(remedy);
        Ok(())
    }

    /// Acknowledges the error.
    pub(crate) fn go_on_with(&mut self, remedy: Remedy)
        requires stopped { IsStopped self.old.mode }
        ensures { self.new ≡ acknowledged_by remedy self.old }
    {
        self.acknowledged = self.error;
        self.mode = Mode::from(remedy);
    }

    /// CMDQ_ERR of SMMU_GERROR and of SMMU_GERRORN.
    pub(crate) fn bits(&self) -> (bool, bool)
        ensures error { result.0 ≡ self.now.error }
        ensures acknowledged { result.1 ≡ self.now.acknowledged }
        ensures active { IsActive self.now.mode self.now.error self.now.acknowledged }
    {
        (self.error, self.acknowledged)
    }

    /// SMMU_CMDQ_CONS.ERR, SMMU_GERROR and SMMU_GERRORN.
    pub(crate) fn registers(&self) -> (u32, u32, u32)
        ensures err { result.0 ≡ err_of self.now.mode }
        ensures gerror { result.1 ≡ word_of self.now.error }
        ensures gerrorn { result.2 ≡ word_of self.now.acknowledged }
    {
        let err = u32::from(self.is_stopped());
        (err, word_of(self.error), word_of(self.acknowledged))
    }
}
