//! What stands in the copy of a queue's memory.
ghost use Rattle.std.specs.Prelude.{◌≡◌, ◌≤◌, ◌++◌, ℕ, length, drop};
ghost use Rattle.qindex.specs.Positions.{size, index_of};
ghost use Rattle.hardware_queue.specs.Queues.{in_memory};

use cmdcodec::Raw;
use qindex::Index;

/// Copies so many commands, as they stand in memory from an index on, to the beginning of a buffer.
pub fn copy_from(memory: &[Raw], start: Index, count: u32, buffer: &mut [Raw])
    requires room { count ≤ length buffer.old }
    requires within { count ≤ size start.geometry }
    requires memory { length memory.now ≡ size start.geometry }
    ensures { (position : ℕ) → start ≡ index_of start.geometry position
        → buffer.new ≡ in_memory start.geometry memory.now position count ++ drop count buffer.old }
{
    for offset in 0..count {
        buffer[offset as usize] = memory[start.forward(offset).place() as usize];
    }
}
