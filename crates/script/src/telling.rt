//! The answers that scripts of every kind give.
ghost use Rattle.std.specs.Prelude.{◌≡◌, ◌≤◌, ◌++◌, OnOk, string_bytes};
ghost use Rattle.script.specs.Outcome.{fault_line};
ghost use Rattle.script.specs.Texts.{ring_text};

use std::alloc::AllocError;
use std::fmt::Write;

/// Appends the fault of the line of this number, which ends the run.
pub fn say_fault(number: u64, name: &str, reply: &mut String) -> Result<(), AllocError>
    ensures { OnOk result (string_bytes reply.new
        ≡ string_bytes reply.old ++ fault_line number name.now) }
{
    write!(reply, "line {number}: {name}\n")
}

/// Appends the size of the new ring of `2^log2` slots. `log2` is at most 19.
pub fn say_ring(log2: u32, reply: &mut String) -> Result<(), AllocError>
    requires { log2 ≤ 19 }
    ensures { OnOk result (string_bytes reply.new ≡ string_bytes reply.old ++ ring_text log2) }
{
    let size = 1u32 << log2;
    write!(reply, "ring size {size}\n")
}
