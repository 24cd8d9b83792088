//! A run of a script, between two reads.
ghost use Rattle.std.specs.Prelude.{◌≡◌, ◌≢◌, ◌≤◌, ◌<◌, ◌+◌, ◌++◌, ◌⊎◌, ℕ, List, [], ◌∷◌, Option, Some, IfOk, IfErr, OnOk, OnErr, length, take, string_bytes, codes, true, false};
ghost use Rattle.std.specs.Io.KnownBytes.{Appends, Consumes, IsAtEnd, Keeps};
ghost use Rattle.memchr.specs.Find.{IsFirstByte, is_byte};
ghost use Rattle.script.specs.Lines.{HasNoEnd, lines_of};
ghost use Rattle.script.specs.Outcome.{Continues, Ends, fault_line};
ghost use Rattle.script.specs.Knowing.{Learns, Leads};
ghost use Rattle.script.specs.Endings.{EndsKnown};
ghost use Rattle.script.specs.Errors.{is_read, is_memory, is_write, WantsMemoryOrNumber};
ghost use Rattle.script.specs.Writing.{no_memory_line};

use crate::ending::Ending;
use crate::error::ServeError;
use crate::interpreter::{Interpreter, LONGEST_LINE};
use crate::pending::Pending;
use crate::sending::{tell_of_memory, write_whole};
use memchr::memchr;
use std::alloc::{AllocError, Global};
use std::fmt::Write as _;
use std::io::{Read, Write};

/// How many bytes of text are gathered before they are written.
const LONG_TEXT: usize = 65_536;

/// Why serving paused.
#[derive(Clone, Copy, PartialEq, Eq)]
pub(crate) enum Pause {
    /// A line ended the run.
    Ended,
    /// More than `LONG_TEXT` bytes of text are gathered.
    Full,
    /// No whole line is pending.
    Drained,
}

/// The bytes not served yet, how many lines were served, and the answers not written yet.
#[derive(Drop)]
pub(crate) struct Run {
    pending: Pending,
    lines: u64,
    /// The answers that are not written yet, each whole.
    text: String,
    /// The answer to the line being served.
    reply: String,
}

impl Run {
    ghost use Rattle.script.specs.Serving.{Advances, Stops, Halts, Closes, TakesBytes, SameButText, SameButPending, WritesFront, KeepsWay, GivesAnswer, GivesNoMemory, GivesBeginning};

    pub(crate) fn new(alloc: Global) -> Result<Run, AllocError>
        ensures { IfOk result (λ run. (run.pending ≡ []) × (run.lines ≡ 0)
            × (string_bytes run.text ≡ [])) }
    {
        let pending = Pending::new(alloc)?;
        Ok(Run {
            pending,
            lines: 0,
            text: String::new(alloc),
            reply: String::new(alloc),
        })
    }

    // Adds the reply to the text.
    fn gather(&mut self) -> Result<(), ServeError>
        ensures same { SameButText self.old self.new }
        ensures text { OnOk result (string_bytes self.new.text
            ≡ string_bytes self.old.text ++ string_bytes self.old.reply) }
        ensures err { OnErr result (string_bytes self.new.text ≡ string_bytes self.old.text) }
        ensures error { IfErr result (λ e. is_memory e ≡ true) }
    {
        match self.text.push_str(self.reply.as_str()) {
            Ok(()) => Ok(()),
            Err(e) => Err(ServeError::Memory(e)),
        }
    }

    // Serves the first `end` pending bytes as a line, and leaves them there. Returns whether the run goes on.
    fn answer_line<I: Interpreter>(
        &mut self,
        interpreter: &mut I,
        end: usize,
    ) -> Result<bool, ServeError>
        requires within { end ≤ length self.old.pending }
        requires short { end ≤ 4096 }
        ensures pending { self.new.pending ≡ self.old.pending }
        ensures lines { OnOk result (self.new.lines ≡ self.old.lines + 1) }
        ensures goes_on { IfOk result (λ goes_on. goes_on ≡ true
            → Continues (I.gives interpreter.old) (I.gives interpreter.new) (self.old.lines + 1)
            (take end self.old.pending) (string_bytes self.old.text) (string_bytes self.new.text)) }
        ensures ends { IfOk result (λ goes_on. goes_on ≡ false
            → Ends (I.gives interpreter.old) (self.old.lines + 1) (take end self.old.pending)
            (string_bytes self.old.text) (string_bytes self.new.text)) }
        ensures last { IfOk result (λ goes_on. goes_on ≡ false
            → I.ended_at interpreter.new (self.old.lines + 1) (take end self.old.pending)) }
        ensures learns { IfOk result (λ goes_on. goes_on ≡ true
            → Learns I.knows interpreter.old interpreter.new (take end self.old.pending ∷ [])) }
        ensures err { OnErr result (string_bytes self.new.text ≡ string_bytes self.old.text) }
        ensures error { IfErr result (λ e. WantsMemoryOrNumber e (self.old.lines + 1)) }
    {
        let Some(number) = self.lines.checked_add(1) else {
            return Err(ServeError::Endless);
        };
        self.reply.clear();
        let line = &self.pending.as_slice()[..end];
        let goes_on = match interpreter.serve_line(number, line, &mut self.reply) {
            Ok(goes_on) => goes_on,
            Err(e) => return Err(ServeError::Memory(e)),
        };
        self.gather()?;
        self.lines = number;
        Ok(goes_on)
    }

    // Answers a line that is too long, whatever it says.
    fn refuse_long_line<I: Interpreter>(&mut self, interpreter: &mut I) -> Result<(), ServeError>
        ensures last { OnOk result ((line : List ℕ) → 4096 < length line
            → I.ended_at interpreter.new (self.old.lines + 1) line) }
        ensures same { SameButText self.old self.new }
        ensures text { OnOk result (string_bytes self.new.text
            ≡ string_bytes self.old.text ++ fault_line (self.old.lines + 1) (codes "long line")) }
        ensures err { OnErr result (string_bytes self.new.text ≡ string_bytes self.old.text) }
        ensures error { IfErr result (λ e. WantsMemoryOrNumber e (self.old.lines + 1)) }
    {
        let Some(number) = self.lines.checked_add(1) else {
            return Err(ServeError::Endless);
        };
        self.reply.clear();
        if let Err(e) = write!(self.reply, "line {number}: long line\n") {
            return Err(ServeError::Memory(e));
        }
        interpreter.hear_of_long_line(number, self.reply.as_str());
        self.gather()
    }

    // Serves the line that ends at a place, and removes it. Returns whether the run goes on.
    fn serve_next<I: Interpreter>(
        &mut self,
        interpreter: &mut I,
        end: usize,
    ) -> Result<bool, ServeError>
        requires { IsFirstByte (is_byte 10) self.old.pending (Some end) }
        ensures goes_on { IfOk result (λ goes_on. goes_on ≡ true
            → Advances (I.gives interpreter.old) (I.gives interpreter.new) self.old self.new) }
        ensures learns { IfOk result (λ goes_on. goes_on ≡ true → (last : I)
            → Advances (Leads I.knows last interpreter.old) (Leads I.knows last interpreter.new)
            self.old self.new) }
        ensures lines { IfOk result (λ goes_on. goes_on ≡ true
            → self.new.lines ≡ self.old.lines + 1) }
        ensures shorter { IfOk result (λ goes_on. goes_on ≡ true
            → length self.new.pending < length self.old.pending) }
        ensures passes { IfOk result (λ goes_on. goes_on ≡ true → (last : I)
            → Advances (EndsKnown (I.gives interpreter.old) (I.ended_at last))
            (EndsKnown (I.gives interpreter.new) (I.ended_at last)) self.old self.new) }
        ensures stops { IfOk result (λ goes_on. goes_on ≡ false
            → Stops (I.gives interpreter.old) self.old self.new) }
        ensures last { IfOk result (λ goes_on. goes_on ≡ false
            → Stops (EndsKnown (I.gives interpreter.old) (I.ended_at interpreter.new)) self.old
            self.new) }
        ensures err { OnErr result (string_bytes self.new.text ≡ string_bytes self.old.text) }
        ensures error { IfErr result (λ e. WantsMemoryOrNumber e (self.old.lines + 1)) }
    {
        if end > LONGEST_LINE {
            self.refuse_long_line(interpreter)?;
            return Ok(false);
        }
        if !self.answer_line(interpreter, end)? {
            return Ok(false);
        }
        self.pending.skip(end + 1);
        Ok(true)
    }

    /// Serves pending whole lines until much text is gathered, and returns why it stopped.
    fn serve_lines<I: Interpreter>(&mut self, interpreter: &mut I) -> Result<Pause, ServeError>
        ensures goes_on { IfOk result (λ pause. pause ≢ Pause.Ended
            → Advances (I.gives interpreter.old) (I.gives interpreter.new) self.old self.new) }
        ensures learns { IfOk result (λ pause. pause ≢ Pause.Ended → (last : I)
            → Advances (Leads I.knows last interpreter.old) (Leads I.knows last interpreter.new)
            self.old self.new) }
        ensures takes { IfOk result (λ pause. pause ≢ Pause.Ended → TakesBytes self.old self.new) }
        ensures full { IfOk result (λ pause. pause ≡ Pause.Full
            → length self.new.pending < length self.old.pending) }
        ensures drained { IfOk result (λ pause. pause ≡ Pause.Drained
            → HasNoEnd self.new.pending × (length self.new.pending ≤ 4096)) }
        ensures passes { IfOk result (λ pause. pause ≢ Pause.Ended → (last : I)
            → Advances (EndsKnown (I.gives interpreter.old) (I.ended_at last))
            (EndsKnown (I.gives interpreter.new) (I.ended_at last)) self.old self.new) }
        ensures stops { IfOk result (λ pause. pause ≡ Pause.Ended
            → Stops (I.gives interpreter.old) self.old self.new) }
        ensures last { IfOk result (λ pause. pause ≡ Pause.Ended
            → Stops (EndsKnown (I.gives interpreter.old) (I.ended_at interpreter.new)) self.old
            self.new) }
        ensures halts { OnErr result (Halts (I.gives interpreter.old) self.old self.new) }
        ensures error { IfErr result (λ e.
            WantsMemoryOrNumber e (self.old.lines + length self.old.pending + 1)) }
    {
        'lines: while let Some(end) = memchr(b'\n', self.pending.as_slice()) {
            if !self.serve_next(interpreter, end)? {
                return Ok(Pause::Ended);
            }
            if self.text.len() > LONG_TEXT {
                return Ok(Pause::Full);
            }
        }
        if self.pending.as_slice().len() > LONGEST_LINE {
            // The line is too long already, wherever its end is.
            self.refuse_long_line(interpreter)?;
            return Ok(Pause::Ended);
        }
        Ok(Pause::Drained)
    }

    /// Serves what is pending, if anything, as the last line, and returns how the run ends.
    fn serve_last<I: Interpreter>(&mut self, interpreter: &mut I) -> Result<Ending, ServeError>
        requires no_end { HasNoEnd self.old.pending }
        requires short { length self.old.pending ≤ 4096 }
        ensures closes { IfOk result (Closes (I.gives interpreter.old) self.old self.new) }
        ensures last { IfOk result
            (Closes (EndsKnown (I.gives interpreter.old) (I.ended_at interpreter.new)) self.old
            self.new) }
        ensures learns { IfOk result (λ ending. ending ≡ Ending.Finished
            → Learns I.knows interpreter.old interpreter.new (lines_of self.old.pending)) }
        ensures halts { OnErr result (Halts (I.gives interpreter.old) self.old self.new) }
        ensures error { IfErr result (λ e. WantsMemoryOrNumber e (self.old.lines + 1)) }
    {
        let count = self.pending.as_slice().len();
        if count == 0 {
            return Ok(Ending::Finished);
        }
        if self.answer_line(interpreter, count)? {
            Ok(Ending::Finished)
        } else {
            Ok(Ending::Refused)
        }
    }

    /// Reads more, once nothing is left to write, and returns whether anything came. An `Err` changes nothing.
    pub(crate) fn read_more<R: Read>(&mut self, input: &mut R) -> Result<bool, ServeError>
        requires short { length self.old.pending ≤ 4096 }
        requires written { string_bytes self.old.text ≡ [] }
        ensures same { SameButPending self.old self.new }
        ensures part { OnOk result ((part : List ℕ) × (self.new.pending ≡ self.old.pending ++ part)
            × Consumes (R.remaining input.old) (R.remaining input.new) part) }
        ensures more { IfOk result (λ more. more ≡ true
            → length self.old.pending < length self.new.pending) }
        ensures end { IfOk result (λ more. more ≡ false
            → (self.new.pending ≡ self.old.pending) × IsAtEnd (R.remaining input.new)) }
        ensures err { OnErr result (Keeps (R.remaining input.old) (R.remaining input.new)) }
        ensures error { IfErr result (λ e. is_read e ≡ true) }
    {
        match self.pending.fill(input) {
            Ok(more) => Ok(more),
            Err(e) => Err(ServeError::Read(e)),
        }
    }

    // Writes the text and clears it. After an `Err` a front of it was written.
    fn send_text<W: Write>(&mut self, output: &mut W) -> Result<(), ServeError>
        ensures same { SameButText self.old self.new }
        ensures ok { OnOk result ((string_bytes self.new.text ≡ [])
            × Appends (W.contents output.old) (W.contents output.new)
            (string_bytes self.old.text)) }
        ensures err { OnErr result (WritesFront (W.contents output.old) (W.contents output.new)
            (string_bytes self.old.text)) }
        ensures error { IfErr result (λ e. is_write e ≡ true) }
    {
        write_whole(output, self.text.as_bytes())?;
        self.text.clear();
        Ok(())
    }

    // Writes the text, and then `no memory` if memory ran out. Returns the error that ends the run.
    fn give_up<W: Write>(&mut self, output: &mut W, e: ServeError) -> ServeError
        ensures same { SameButText self.old self.new }
        ensures told { is_memory result ≡ true
            → Appends (W.contents output.old) (W.contents output.new)
            (string_bytes self.old.text ++ no_memory_line) }
        ensures part { WritesFront (W.contents output.old) (W.contents output.new)
            (string_bytes self.old.text ++ no_memory_line) }
        ensures error { (result ≡ e) ⊎ (is_write result ≡ true) }
    {
        if let Err(failed) = self.send_text(output) {
            return failed;
        }
        match e {
            ServeError::Memory(e) => tell_of_memory(output, e),
            other => other,
        }
    }

    /// Serves pending lines and writes their answers.
    pub(crate) fn deliver<I: Interpreter, W: Write>(
        &mut self,
        interpreter: &mut I,
        output: &mut W,
    ) -> Result<Pause, ServeError>
        ensures goes_on { IfOk result (λ pause. pause ≢ Pause.Ended
            → (first : I) (rest : Option (List ℕ))
            → KeepsWay (I.gives first) (I.gives interpreter.old) (I.gives interpreter.new) rest rest
            (W.contents output.old) (W.contents output.new) self.old self.new) }
        ensures learns { IfOk result (λ pause. pause ≢ Pause.Ended
            → (first : I) (last : I) (rest : Option (List ℕ))
            → KeepsWay (Leads I.knows last first) (Leads I.knows last interpreter.old)
            (Leads I.knows last interpreter.new) rest rest (W.contents output.old)
            (W.contents output.new) self.old self.new) }
        ensures passes { IfOk result (λ pause. pause ≢ Pause.Ended
            → (first : I) (last : I) (rest : Option (List ℕ))
            → KeepsWay (EndsKnown (I.gives first) (I.ended_at last))
            (EndsKnown (I.gives interpreter.old) (I.ended_at last))
            (EndsKnown (I.gives interpreter.new) (I.ended_at last)) rest rest
            (W.contents output.old) (W.contents output.new) self.old self.new) }
        ensures takes { IfOk result (λ pause. pause ≢ Pause.Ended → TakesBytes self.old self.new) }
        ensures full { IfOk result (λ pause. pause ≡ Pause.Full
            → length self.new.pending < length self.old.pending) }
        ensures drained { IfOk result (λ pause. pause ≡ Pause.Drained
            → HasNoEnd self.new.pending × (length self.new.pending ≤ 4096)
            × (string_bytes self.new.text ≡ [])) }
        ensures ended { IfOk result (λ pause. pause ≡ Pause.Ended
            → (first : I) (rest : Option (List ℕ))
            → GivesAnswer (I.gives first) (I.gives interpreter.old) rest (W.contents output.old)
            (W.contents output.new) self.old Ending.Refused) }
        ensures last { IfOk result (λ pause. pause ≡ Pause.Ended
            → (first : I) (rest : Option (List ℕ))
            → GivesAnswer (EndsKnown (I.gives first) (I.ended_at interpreter.new))
            (EndsKnown (I.gives interpreter.old) (I.ended_at interpreter.new)) rest
            (W.contents output.old) (W.contents output.new) self.old Ending.Refused) }
        ensures memory { IfErr result (λ e. is_memory e ≡ true
            → (first : I) (rest : Option (List ℕ))
            → GivesNoMemory (I.gives first) (I.gives interpreter.old) rest (W.contents output.old)
            (W.contents output.new) self.old) }
        ensures err { OnErr result ((first : I) (rest : Option (List ℕ))
            → GivesBeginning (I.gives first) (I.gives interpreter.old) rest (W.contents output.old)
            (W.contents output.new) self.old) }
        ensures error { IfErr result (λ e. (is_write e ≡ true)
            ⊎ WantsMemoryOrNumber e (self.old.lines + length self.old.pending + 1)) }
    {
        match self.serve_lines(interpreter) {
            Ok(pause) => {
                self.send_text(output)?;
                Ok(pause)
            }
            Err(e) => Err(self.give_up(output, e)),
        }
    }

    /// Serves the last line and writes its answer, once nothing is left to read.
    pub(crate) fn finish<I: Interpreter, W: Write>(
        &mut self,
        interpreter: &mut I,
        output: &mut W,
    ) -> Result<Ending, ServeError>
        requires no_end { HasNoEnd self.old.pending }
        requires short { length self.old.pending ≤ 4096 }
        ensures answer { IfOk result (λ ending. (first : I) (rest : Option (List ℕ)) → IsAtEnd rest
            → GivesAnswer (I.gives first) (I.gives interpreter.old) rest (W.contents output.old)
            (W.contents output.new) self.old ending) }
        ensures last { IfOk result (λ ending. (first : I) (rest : Option (List ℕ)) → IsAtEnd rest
            → GivesAnswer (EndsKnown (I.gives first) (I.ended_at interpreter.new))
            (EndsKnown (I.gives interpreter.old) (I.ended_at interpreter.new)) rest
            (W.contents output.old) (W.contents output.new) self.old ending) }
        ensures learns { IfOk result (λ ending. ending ≡ Ending.Finished
            → Learns I.knows interpreter.old interpreter.new (lines_of self.old.pending)) }
        ensures memory { IfErr result (λ e. is_memory e ≡ true
            → (first : I) (rest : Option (List ℕ))
            → GivesNoMemory (I.gives first) (I.gives interpreter.old) rest (W.contents output.old)
            (W.contents output.new) self.old) }
        ensures err { OnErr result ((first : I) (rest : Option (List ℕ)) → IsAtEnd rest
            → GivesBeginning (I.gives first) (I.gives interpreter.old) rest (W.contents output.old)
            (W.contents output.new) self.old) }
        ensures error { IfErr result (λ e. (is_write e ≡ true)
            ⊎ WantsMemoryOrNumber e (self.old.lines + 1)) }
    {
        match self.serve_last(interpreter) {
            Ok(ending) => {
                self.send_text(output)?;
                Ok(ending)
            }
            Err(e) => Err(self.give_up(output, e)),
        }
    }
}
