//! The texts of answers, each appended to a reply.
ghost use Rattle.std.specs.Prelude.{◌≡◌, ◌++◌, OnOk, Some, string_bytes};
ghost use Rattle.script.specs.Outcome.{fault_line};
ghost use Rattle.trace.specs.Replies.{conduct_text, fault_name, not_filled_text, reply_text};

use crate::log_fault::LogFault;
use crate::reply::Reply;
use crate::request::Conduct;
use replay::say_step;
use script::say_fault;
use std::alloc::AllocError;
use std::fmt;
use std::fmt::Write;
use transactions::WalkFault;

/// The text of what a model should have done.
#[derive(Clone, Copy)]
struct ConductText(Conduct);

impl fmt::Display for ConductText {
    ghost output = { λ text. Some (conduct_text text.0) };

    fn fmt<W: fmt::Write>(&self, f: &mut fmt::Formatter<W>) -> fmt::Result {
        match self.0 {
            Conduct::Filled => f.write_str("filled"),
            Conduct::Overtaken => f.write_str("overtaken"),
            Conduct::Used { value } => write!(f, "used value={value}"),
            Conduct::Missed => f.write_str("missed"),
            Conduct::Completed => f.write_str("completed"),
            Conduct::Waited => f.write_str("waited"),
        }
    }
}

/// Appends why what a walk read isn't filled.
fn say_not_filled(fault: WalkFault, reply: &mut String) -> Result<(), AllocError>
    ensures { OnOk result (string_bytes reply.new
        ≡ string_bytes reply.old ++ not_filled_text fault) }
{
    match fault {
        WalkFault::Overtaken => reply.push_str("overtaken\n"),
        WalkFault::TooOld => reply.push_str("too old\n"),
        WalkFault::OtherUnit => reply.push_str("other unit\n"),
        WalkFault::Refused(fault) => {
            let label = fault.label();
            write!(reply, "refused {label}\n")
        }
    }
}

/// Appends what is right for a line.
pub(crate) fn say_reply(said: &Reply, reply: &mut String) -> Result<(), AllocError>
    ensures { OnOk result (string_bytes reply.new ≡ string_bytes reply.old ++ reply_text said.now) }
{
    match said {
        Reply::Nothing => Ok(()),
        Reply::Walking => reply.push_str("walking\n"),
        Reply::Filled => reply.push_str("filled\n"),
        Reply::NotFilled(fault) => say_not_filled(*fault, reply),
        Reply::Using { value } => write!(reply, "used value={value}\n"),
        Reply::NotHeld => reply.push_str("not held\n"),
        Reply::Ended => reply.push_str("ended\n"),
        Reply::Step(answer) => say_step(answer, reply),
        Reply::Waiting { transactions } => write!(reply, "waiting {transactions}\n"),
        Reply::Acknowledged => reply.push_str("acknowledged\n"),
        Reply::NotAcknowledged(fault) => {
            let label = fault.label();
            write!(reply, "refused {label}\n")
        }
        Reply::Right => reply.push_str("right\n"),
        Reply::Unjudged => reply.push_str("unjudged\n"),
    }
}

/// Appends the fault of the line of this number, which ends the run.
pub(crate) fn say_log_fault(
    number: u64,
    fault: LogFault,
    reply: &mut String,
) -> Result<(), AllocError>
    ensures { OnOk result (string_bytes reply.new
        ≡ string_bytes reply.old ++ fault_line number (fault_name fault)) }
{
    match fault {
        LogFault::Memory => say_fault(number, "no memory", reply),
        LogFault::NoWalk => say_fault(number, "no walk", reply),
        LogFault::AccessOpen => say_fault(number, "access open", reply),
        LogFault::NoAccess => say_fault(number, "no access", reply),
        LogFault::TooManyAccesses => say_fault(number, "too many accesses", reply),
        LogFault::OtherCommand => say_fault(number, "other command", reply),
        LogFault::Wrong(conduct) => {
            let right = ConductText(conduct);
            write!(reply, "line {number}: wrong: {right} is right\n")
        }
    }
}
