//! The texts of refusals, which change nothing and don't end the run.
ghost use Rattle.std.specs.Prelude.{◌≡◌, ◌++◌, OnOk, string_bytes};
ghost use Rattle.batch.specs.Faults.{label_of as batch_label};
ghost use Rattle.caches.specs.Faults.{label_of as cache_label};
ghost use Rattle.ring.specs.FaultNames.{cause_label};
ghost use Rattle.engine.specs.Stops.{label_of as acknowledgement_label};
ghost use Rattle.replay.specs.texts.Refusals.{refused_text};

use batch::BatchFault;
use caches::CacheFault;
use engine::AckFault;
use ring::Cause;
use std::alloc::AllocError;
use std::fmt::Write;

pub(crate) fn say_batch_refused(fault: BatchFault, reply: &mut String) -> Result<(), AllocError>
    ensures { OnOk result (string_bytes reply.new
        ≡ string_bytes reply.old ++ refused_text (batch_label fault)) }
{
    let label = fault.label();
    write!(reply, "refused {label}\n")
}

pub(crate) fn say_reserving_refused(cause: Cause, reply: &mut String) -> Result<(), AllocError>
    ensures { OnOk result (string_bytes reply.new
        ≡ string_bytes reply.old ++ refused_text (cause_label cause)) }
{
    let label = cause.label();
    write!(reply, "refused {label}\n")
}

pub(crate) fn say_fill_refused(fault: CacheFault, reply: &mut String) -> Result<(), AllocError>
    ensures { OnOk result (string_bytes reply.new
        ≡ string_bytes reply.old ++ refused_text (cache_label fault)) }
{
    let label = fault.label();
    write!(reply, "refused {label}\n")
}

pub(crate) fn say_acknowledgement_refused(
    fault: AckFault,
    reply: &mut String,
) -> Result<(), AllocError>
    ensures { OnOk result (string_bytes reply.new
        ≡ string_bytes reply.old ++ refused_text (acknowledgement_label fault)) }
{
    let label = fault.label();
    write!(reply, "refused {label}\n")
}
