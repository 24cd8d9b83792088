//! A command queue of hardware, as a driver sees it.
use cmdcodec::Raw;

/// The memory of a queue and its registers. The clauses say what is taken for granted of the hardware.
pub trait CommandQueue {
    ghost use Rattle.std.specs.Prelude.{◌≡◌, ℕ};
    ghost use Rattle.hardware_queue.specs.Queues.{QueueValue, IsFree, IsOfIllegal, written, overwritten, MayShow, shown_up_to};
    ghost use Rattle.hardware_queue.specs.Queues.{HasReadCons, HasReadErrors, HasReadAcknowledged, MayAcknowledge, acknowledged_by, SyncsComplete};
    ghost use Rattle.hardware_queue.specs.Queues.{MayRestart, HasRestarted};

    /// The queue as its driver knows it.
    ghost queue: { Self → QueueValue };

    /// The command that was shown at this position has all its effect.
    ghost has_effect: { Self → ℕ → Type 0 };

    /// Writes a command into a slot that the hardware doesn't read. In place of a CMD_SYNC without a signal it may write one
    /// with any, as an MSI: `queue` has it without.
    fn write(&mut self, slot: u32, raw: Raw)
        requires { IsFree (queue self.old) slot }
        ensures { queue self.new ≡ written slot raw (queue self.old) };

    /// Writes a CMD_SYNC without a signal, 0x46 and 0, over the command that the hardware calls illegal.
    fn overwrite(&mut self, slot: u32)
        requires { IsOfIllegal (queue self.old) slot }
        ensures { queue self.new ≡ overwritten slot (queue self.old) };

    /// Writes SMMU_CMDQ_PROD, after all writes that came before. The hardware reads what was written until then.
    fn show_prod(&mut self, prod: u32)
        requires { MayShow prod (queue self.old) }
        ensures { queue self.new ≡ shown_up_to prod (queue self.old) };

    /// Reads SMMU_CMDQ_CONS. The hardware consumes only what it was shown, in order, and nothing while it is stopped.
    fn read_cons(&mut self) -> u32
        ensures { HasReadCons (queue self.old) (queue self.new) result };

    /// Reads SMMU_GERROR. While CMDQ_ERR isn't that of SMMU_GERRORN, the hardware is stopped.
    fn read_gerror(&mut self) -> u32
        ensures { HasReadErrors (queue self.old) (queue self.new) result };

    /// Reads SMMU_GERRORN. Nobody else writes its CMDQ_ERR; other bits may have changed.
    fn read_gerrorn(&mut self) -> u32
        ensures { HasReadAcknowledged (queue self.old) (queue self.new) result };

    /// Writes SMMU_GERRORN, after all writes that came before. The hardware goes on from where it stopped.
    fn write_gerrorn(&mut self, word: u32)
        requires { MayAcknowledge word (queue self.old) }
        ensures { queue self.new ≡ acknowledged_by word (queue self.old) };

    /// Disables the queue, waits until the hardware reads no more of it, acknowledges CMDQ_ERR if it is active, sets
    /// SMMU_CMDQ_PROD and SMMU_CMDQ_CONS, and enables the queue. What lies between the two stands in its slots. Whoever
    /// resets the whole SMMU invalidates all that it holds first. Returns SMMU_GERRORN as it was read then.
    fn restart(&mut self, prod: u32, cons: u32) -> u32
        requires { MayRestart prod cons (queue self.old) }
        ensures { HasRestarted (queue self.old) (queue self.new) result };

    /// A witness of what a consumed CMD_SYNC tells. It does nothing.
    fn syncs_complete(&self)
        ensures { SyncsComplete (has_effect self.now) (queue self.now) };
}
