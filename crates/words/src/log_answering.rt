//! Answering the lines of a kernel's log, one after another.
ghost use Rattle.std.specs.Prelude.{◌≡◌, ◌&&◌, ◌++◌, IfOk, OnOk, not, string_bytes, true};
ghost use Rattle.words.specs.declared.log_line.LogLine.TheVariants.{Other};
ghost use Rattle.words.specs.LogSteps.{answer_behind, is_half};

use crate::line::{say_bad_line, say_raw};
use crate::log_line::{LogLine, log_line};
use cmdcodec::Raw;
use line_answers::Notes;
use script::Interpreter;
use std::alloc::{AllocError, Global};

/// Why a half isn't good.
const HALF_MEANS: &str = "half a command: its second word was expected in the next line";

/// Answers the lines of a log, and keeps whether all were good.
#[derive(Drop)]
pub(crate) struct LogAnswering {
    alloc: Global,
    /// How the line before counts for the next one.
    before: LogLine,
    /// The number of the line before.
    number: u64,
    all_good: bool,
    notes: Notes,
}

impl LogAnswering {
    pub(crate) fn new(alloc: Global) -> LogAnswering
        ensures good { result.all_good ≡ true }
        ensures before { result.before ≡ Other }
    {
        LogAnswering {
            alloc,
            before: LogLine::Other,
            number: 0,
            all_good: true,
            notes: Notes::new(alloc),
        }
    }

    /// Returns whether all lines were good, and the notes on those that weren't.
    pub(crate) fn ended(mut self) -> (bool, Notes)
        ensures { result.0 ≡ (self.all_good && not (is_half self.before)) }
    {
        self.note_behind(LogLine::Other);
        let is_whole = !self.before.is_half();
        (self.all_good && is_whole, self.notes)
    }

    /// Notes the line before, if it is a half that this line leaves alone.
    fn note_behind(&mut self, line: LogLine)
        ensures before { self.new.before ≡ self.old.before }
        ensures good { self.new.all_good ≡ self.old.all_good }
    {
        if self.before.is_half() && !line.is_half() {
            self.notes.note(self.alloc, self.number, HALF_MEANS);
        }
    }
}

/// Appends what is written at a line of a log, given the line before it, and returns whether that is good.
fn say_behind(before: LogLine, line: LogLine, reply: &mut String) -> Result<bool, AllocError>
    ensures text { OnOk result (string_bytes reply.new
        ≡ string_bytes reply.old ++ (answer_behind before line).text) }
    ensures good { IfOk result (λ is_good. is_good ≡ (answer_behind before line).is_good) }
{
    match (before, line) {
        (LogLine::Half(lo), LogLine::Half(hi)) => say_raw(Raw { lo, hi }, reply),
        (LogLine::Half(_), _) => say_bad_line(reply),
        _ => Ok(true),
    }
}

impl Interpreter for LogAnswering {
    ghost use Rattle.std.specs.Prelude.{⊤};
    ghost use Rattle.words.specs.LogSteps.{ComesBehind, AreJudged};
    ghost use Rattle.words.specs.LogLaws as laws;

    ghost gives = { λ log number lines outcome. ComesBehind log.before number lines outcome };

    ghost knows = { λ log lines. AreJudged log.all_good log.before lines };

    ghost ended_at = { λ log number line. ⊤ };

    ghost nothing_left = { λ log n. laws.nothing_left log.before n };

    ghost long_line = { λ log n line lines long. laws.long_line log.before n line lines long };

    ghost begins = { λ log n lines. laws.begins log.before n lines };

    ghost cut = { λ log n lines outcome front rest comes split. laws.cut log.before n lines outcome front rest comes split };

    fn serve_line(
        &mut self,
        number: u64,
        line: &[u8],
        reply: &mut String,
    ) -> Result<bool, AllocError> {
        let line = log_line(line);
        let is_good = say_behind(self.before, line, reply)?;
        self.note_behind(line);
        self.all_good &= is_good;
        self.before = line.behind(self.before);
        self.number = number;
        Ok(true)
    }

    fn hear_of_long_line(&mut self, number: u64, _reply: &str) {
        self.note_behind(LogLine::Other);
        self.before = LogLine::Other;
        self.notes.note_long_line(self.alloc, number);
    }
}
