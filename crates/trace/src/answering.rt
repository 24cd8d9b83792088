//! Answering the lines of a log, one after another.
ghost use Rattle.std.specs.Prelude.{◌≡◌, ◌≤◌, IfOk, length, string_bytes};
ghost use Rattle.trace.specs.Logs.{IsLineAnswer, IsNew};
ghost use Rattle.trace.specs.Requests.{request_of};

use crate::log_fault::LogFault;
use crate::parsing::parse;
use crate::state::Trace;
use crate::telling::{say_log_fault, say_reply};
use script::{Interpreter, say_fault};
use std::alloc::{AllocError, Global};

impl Trace {
    /// Answers a line, and returns whether the run goes on.
    fn serve_text(
        &mut self,
        number: u64,
        line: &[u8],
        reply: &mut String,
    ) -> Result<bool, AllocError>
        requires { length line.now ≤ 4096 }
        ensures { IfOk result (λ goes_on. IsLineAnswer number line.now self.old self.new
            (string_bytes reply.old) (string_bytes reply.new) goes_on) }
    {
        let Some(request) = parse(line) else {
            say_fault(number, "bad line", reply)?;
            return Ok(false);
        };
        match self.serve(&request) {
            Ok(said) => {
                say_reply(&said, reply)?;
                Ok(true)
            }
            Err(LogFault::Memory) => Err(AllocError),
            Err(fault) => {
                say_log_fault(number, fault, reply)?;
                Ok(false)
            }
        }
    }
}

/// Answers the lines of a log.
pub(crate) struct LogAnswering {
    /// None if there was no memory for it.
    trace: Option<Trace>,
}

impl LogAnswering {
    pub(crate) fn new(alloc: Global) -> LogAnswering
        ensures { IsNew result.trace }
    {
        let trace = Trace::new(alloc).ok();
        LogAnswering { trace }
    }

    /// The log is over.
    pub(crate) fn finish(self) {
        let LogAnswering { trace } = self;
        if let Some(trace) = trace {
            trace.finish();
        }
    }
}

impl Interpreter for LogAnswering {
    ghost use Rattle.std.specs.Prelude.{⊤};
    ghost use Rattle.trace.specs.Logs.{Gives};
    ghost use Rattle.trace.specs.LogLaws as laws;

    ghost gives = { λ log number lines outcome. Gives log.trace number lines outcome };

    ghost knows = { λ log lines. ⊤ };

    ghost ended_at = { λ log number line. ⊤ };

    ghost nothing_left = { λ log n. laws.nothing_left log.trace n };

    ghost long_line = { λ log n line lines long. laws.long_line log.trace n line lines long };

    ghost begins = { λ log n lines. laws.begins log.trace n lines };

    ghost cut = { λ log n lines outcome front rest gives split.
        laws.cut log.trace n lines outcome front rest gives split };

    fn serve_line(
        &mut self,
        number: u64,
        line: &[u8],
        reply: &mut String,
    ) -> Result<bool, AllocError> {
        match &mut self.trace {
            Some(trace) => trace.serve_text(number, line, reply),
            None => Err(AllocError),
        }
    }

    fn hear_of_long_line(&mut self, _number: u64, _reply: &str) {}
}
