//! Counts of the closing syncs taken, per sender.
ghost use Rattle.std.specs.Prelude.{◌≡◌, ◌+◌, ◌<◌, ◌≤◌, ◌^◌, ◌==◌, ℕ, List, [], ◌∷◌, false, length, replicate, slice_index, IfOk, MatchOption};
ghost use Rattle.ringcore.specs.world.Laws.{is_sync_to, syncs_in};
ghost use Rattle.ringcore.specs.machine.ConsumerViews.{commands_read};
ghost use Rattle.ringcore.specs.machine.SyncTallies.{AreTallies, AreCounted};

use crate::machine::ConsumerView;
use cmdcodec::{Raw, cell_owner};
use std::alloc::{AllocError, Global};
use std::marker::Model;

/// How many closing syncs of each sender the consumer took. It may acknowledge numbers up to this one.
#[derive(Drop)]
pub struct SyncTallies {
    counts: Vec<u32>,
}

impl Model for SyncTallies {
    ghost use Rattle.std.specs.Prelude.{List, ℕ};

    ghost Value = { List ℕ };

    ghost view = { λ tallies. tallies.counts.items };
}

impl SyncTallies {
    /// Tallies for this many senders, with no syncs yet.
    ///
    /// Errors: memory runs out.
    pub fn new(alloc: Global, senders: u32) -> Result<SyncTallies, AllocError>
        ensures none { IfOk result (λ tallies. tallies ≡ replicate senders 0) }
        ensures begins { IfOk result (λ tallies. AreTallies [] tallies) }
    {
        Ok(SyncTallies {
            counts: vec![in alloc; 0; senders as usize]?,
        })
    }

    /// Returns how many syncs of a sender are taken.
    pub fn of(&self, sender: u32) -> u32
        requires { sender < length self.now }
        ensures { result ≡ slice_index self.now sender }
    {
        self.counts[sender as usize]
    }

    /// Counts a command that is taken.
    pub fn takes(&mut self, raw: Raw)
        requires { (s : ℕ) → s < length self.old → slice_index self.old s + syncs_in s (raw ∷ []) < 2 ^ 32 }
        ensures { AreCounted self.old self.new (raw ∷ []) }
    {
        if let Some(sender) = sender_of(raw) {
            if sender < self.counts.len() as u64 {
                self.counts[sender as usize] += 1;
            }
        }
    }

    /// Counts the commands that are taken: those of the first `count` from the head on that the consumer
    /// read.
    pub fn takes_read(&mut self, consumer: &ConsumerView, count: u32)
        requires most { count ≤ 64 }
        requires counts { (s : ℕ) → s < length self.old → slice_index self.old s + syncs_in s (commands_read consumer.now count) < 2 ^ 32 }
        ensures { AreCounted self.old self.new (commands_read consumer.now count) }
    {
        for offset in 0..count {
            if let Some(raw) = consumer.command(offset) {
                self.takes(raw);
            }
        }
    }
}

/// Returns the sender whose closing sync the command is, if it is one.
fn sender_of(raw: Raw) -> Option<u64>
    ensures { MatchOption result ((s : ℕ) → is_sync_to s raw ≡ false) (λ sender. (s : ℕ) → is_sync_to s raw ≡ (s == sender)) }
{
    if raw.is_sync() {
        cell_owner(raw.hi)
    } else {
        None
    }
}
