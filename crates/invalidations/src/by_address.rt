//! The commands by address for a range of granules, one after another.
ghost use Rattle.std.specs.Prelude.{◌≡◌, ◌<◌, ◌≤◌, ◌+◌, ◌*◌, ◌%◌, None, IfSome};
ghost use Rattle.cmdcodec.specs.PageRuns.{granule_pages};
ghost use Rattle.invalidations.specs.declared.request.Request.{Request};
ghost use Rattle.invalidations.specs.Spaces.{size_of};
ghost use Rattle.invalidations.specs.Targets.{Fits, leaf_granules};
ghost use Rattle.invalidations.specs.Plans.{are_few};
ghost use Rattle.invalidations.specs.Hints.{ttl_of, IsSaid};
ghost use Rattle.invalidations.specs.ByAddress.{step_of, reach_of, ranged_reach, single, command_of, commands_by_address, preceded_by};

use crate::pieces::{count_of, reached_of, scale_of};
use crate::request::{GranuleRange, Request, Target};
use cmdcodec::{Command, Granule, RangeCount, RangeScale, Reach};
use std::marker::Model;

/// The commands by address that are still to come.
#[derive(Clone, Copy, Debug)]
pub struct CommandsByAddress {
    request: Request,
}

impl Model for CommandsByAddress {
    ghost Value = { Request };

    ghost view = { λ invalidation. invalidation.request };

    ghost invariant = { λ invalidation. Fits invalidation.request };

    ghost inverse = { λ request. record { request = request } };
}

impl CommandsByAddress {
    /// The commands for a request.
    pub(crate) fn new(request: Request) -> CommandsByAddress
        requires { Fits request }
        ensures { result ≡ request }
    {
        CommandsByAddress { request }
    }

    /// Takes the next command.
    #[tactic(auto, using(crate::proofs::ByAddressLemmas::none_left, crate::proofs::ByAddressLemmas::next_one, crate::proofs::ByAddressLemmas::begins_inside, crate::proofs::ByAddressLemmas::next_fits, crate::proofs::HintLemmas::said))]
    pub(crate) fn take(&mut self) -> Option<Command>
        ensures commands { commands_by_address self.old
            ≡ preceded_by result (commands_by_address self.new) }
        ensures target { self.new.target ≡ self.old.target }
        ensures ended { result ≡ None → self.new ≡ self.old }
        ensures said { IfSome result (IsSaid (ttl_of self.old.target)) }
    {
        let GranuleRange { first, count } = self.request.range;
        if count == 0 {
            return None;
        }
        let command = self.request.target.command(first, count);
        let step = self.request.target.step(count);
        self.request.range.first = first + step;
        self.request.range.count = count - step;
        Some(command)
    }

    /// Whether there are at most so many. With ranges there are at most 65,536, and without they aren't counted one by
    /// one.
    #[tactic(auto, using(crate::proofs::LawLemmas::each_leaf))]
    pub(crate) fn are_few(&self, most: u64) -> bool
        ensures { result ≡ are_few self.now most }
    {
        if !self.request.target.ranged {
            return self.request.range.count >> self.request.target.leaf_bits() <= most;
        }
        let (mut rest, mut more) = (*self, most);
        'commands: while let Some(_) = rest.take() {
            if more == 0 {
                return false;
            }
            more -= 1;
        }
        true
    }

    /// What is invalidated.
    pub(crate) fn target(&self) -> Target
        ensures { result ≡ self.now.target }
    {
        self.request.target
    }
}

impl Target {
    /// How many granules the next command stands for.
    #[tactic(auto, unfolding(crate::specs::ByAddress::step_of), using(crate::proofs::LeafLemmas::leaf_within))]
    fn step(&self, left: u64) -> u64
        requires some { 0 < left }
        requires whole { left % leaf_granules self.now ≡ 0 }
        ensures value { result ≡ step_of self.now left }
        ensures within { result ≤ left }
    {
        if self.ranged {
            reached_of(left)
        } else {
            1 << self.leaf_bits()
        }
    }

    /// The next command for `left` granules from `first` on.
    #[tactic(auto, unfolding(crate::specs::ByAddress::command_of))]
    fn command(&self, first: u64, left: u64) -> Command
        requires some { 0 < left }
        requires fits { first * granule_pages self.now.granule < size_of self.now.space }
        ensures { result ≡ command_of self.now first left }
    {
        self.space.command(
            self.entries.is_leaf(),
            first * self.granule.pages(),
            self.reach(left),
        )
    }

    /// How far the next command reaches.
    #[tactic(auto, unfolding(crate::specs::ByAddress::reach_of))]
    fn reach(&self, left: u64) -> Reach
        requires { 0 < left }
        ensures { result ≡ reach_of self.now left }
    {
        if !self.ranged {
            return Reach::Page;
        }
        ranged_reach(self.granule, self.entries.is_hinted(), left)
    }
}

/// How far the next command by range reaches. One with NUM, SCALE and TTL all 0 would be reserved.
#[tactic(auto, unfolding(crate::specs::ByAddress::ranged_reach))]
fn ranged_reach(granule: Granule, hinted: bool, left: u64) -> Reach
    requires { 0 < left }
    ensures { result ≡ ranged_reach granule hinted left }
{
    if reached_of(left) == 1 && !hinted {
        return single(granule);
    }
    Reach::Range {
        tg: granule,
        num: RangeCount::new(count_of(left) - 1).unwrap(),
        scale: RangeScale::new(u64::from(scale_of(left))).unwrap(),
    }
}

/// A granule without TTL: its page if that is all of it, or else two granules.
fn single(granule: Granule) -> Reach
    ensures { result ≡ single granule }
{
    match granule {
        Granule::Kib4 => Reach::Page,
        Granule::Kib16 | Granule::Kib64 => Reach::Range {
            tg: granule,
            num: RangeCount::new(0).unwrap(),
            scale: RangeScale::new(1).unwrap(),
        },
    }
}
