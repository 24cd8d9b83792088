//! The commands of an invalidation, one after another.
ghost use Rattle.std.specs.Prelude.{◌≡◌, ◌<◌, ◌≤◌, [], None, Some, IfSome, true, false};
ghost use Rattle.invalidations.specs.ByAddress.{preceded_by, commands_by_address};
ghost use Rattle.invalidations.specs.Spaces.{IsForWhole};
ghost use Rattle.invalidations.specs.Plans.{commands_of, planned, wholly, few_or_wholly, fallback_of};

use crate::by_address::CommandsByAddress;
use crate::fault::InvalidationFault;
use crate::invalidation::{Bytes, Invalidation};
use crate::policy::Policy;
use crate::request::{GranuleRange, Request, Target};
use crate::space::Space;
use cmdcodec::Command;
use smmu_features::Smmu;
use std::marker::Model;

/// The commands of an invalidation that are still to come.
#[derive(Clone, Copy, Debug)]
pub struct Commands {
    pub(crate) by_address: CommandsByAddress,
    /// The space whose pages are all invalidated in place of those.
    whole: Option<Space>,
}

impl Model for Commands {
    ghost use Rattle.invalidations.specs.Plans.{Plan};

    ghost Value = { Plan };

    ghost view = { λ commands. record { request = commands.by_address; whole = commands.whole } };

    ghost inverse = { λ plan. record { by_address = plan.request; whole = plan.whole } };
}

impl Commands {
    /// Returns the commands for an invalidation: by address, in as few as there are with ranges (SMMU_IDR3.RIL),
    /// or one for each leaf; or else the one for the whole space, where everything is meant or there would be more
    /// than `most_commands`. It refuses a stage or a granule that the SMMU lacks, and then bytes past the end.
    pub fn new(
        invalidation: &Invalidation,
        smmu: &Smmu,
        policy: &Policy,
    ) -> Result<Commands, InvalidationFault>
        ensures { result ≡ planned invalidation.now smmu.now policy.now }
    {
        if !invalidation.is_supported(smmu) {
            return Err(InvalidationFault::Unsupported);
        }
        let target = invalidation.target(smmu);
        match invalidation.bytes {
            Bytes::Everything => Ok(Commands::wholly(&target, policy)),
            Bytes::Range(bytes) => match target.request(bytes) {
                None => Err(InvalidationFault::PastEnd),
                Some(request) => Ok(Commands::few_or_wholly(
                    CommandsByAddress::new(request),
                    policy,
                )),
            },
        }
    }

    /// Takes the next command.
    pub fn next(&mut self) -> Option<Command>
        ensures commands { commands_of self.old ≡ preceded_by result (commands_of self.new) }
        ensures target { self.new.request.target ≡ self.old.request.target }
        ensures ended { result ≡ None → self.new ≡ self.old }
    {
        match self.by_address.take() {
            Some(command) => Some(command),
            None => self.take_whole(),
        }
    }

    /// The command for all of the space, or for those that share its global pages.
    fn wholly(target: &Target, policy: &Policy) -> Commands
        ensures { result ≡ wholly target.now policy.now }
    {
        let range = GranuleRange { first: 0, count: 0 };
        Commands {
            by_address: CommandsByAddress::new(Request {
                target: *target,
                range,
            }),
            whole: Some(fallback(target, policy)),
        }
    }

    /// The commands by address, if they are few enough.
    fn few_or_wholly(by_address: CommandsByAddress, policy: &Policy) -> Commands
        ensures { result ≡ few_or_wholly by_address policy.now }
    {
        if !by_address.are_few(policy.most_commands) {
            return Commands::wholly(&by_address.target(), policy);
        }
        Commands {
            by_address,
            whole: None,
        }
    }

    /// Takes the command for the whole space, if there is one.
    #[tactic(auto, using(crate::proofs::PlanLemmas::none_left, crate::proofs::PlanLemmas::whole_next))]
    pub(crate) fn take_whole(&mut self) -> Option<Command>
        requires { commands_by_address self.old.request ≡ [] }
        ensures commands { commands_of self.old ≡ preceded_by result (commands_of self.new) }
        ensures request { self.new.request ≡ self.old.request }
        ensures ended { result ≡ None → self.new ≡ self.old }
        ensures whole { IfSome result IsForWhole }
    {
        let space = self.whole?;
        self.whole = None;
        Some(space.whole())
    }
}

/// What is invalidated in place of many pages.
fn fallback(target: &Target, policy: &Policy) -> Space
    ensures { result ≡ fallback_of target.now.space policy.now }
{
    if policy.global_pages {
        target.space.with_global_pages()
    } else {
        target.space
    }
}
