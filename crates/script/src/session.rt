//! The lines of a script of any kind, one after another.
ghost use Rattle.std.specs.Prelude.{◌≡◌, ◌≤◌, [], IfOk, IfSome, None, false, length, string_bytes};
ghost use Rattle.script.specs.Giving.{MayAnswer, Holds};
ghost use Rattle.script.specs.Kinds.{request_from, request_of, request_effect, line_effect};
ghost use Rattle.script.specs.LastLines.{EndedBy, IsLine};
ghost use Rattle.script.specs.Serves.{Serves};
ghost use Rattle.script.specs.Standing.{ActsAt};
ghost use Rattle.script.specs.Words.{words_of};

use crate::ending::Ending;
use crate::error::ServeError;
use crate::fields::{is_comment, is_text};
use crate::first::First;
use crate::interpreter::Interpreter;
use crate::kind::ScriptKind;
use crate::last_line::LastLine;
use crate::serving::serve;
use crate::telling::{say_fault, say_ring};
use crate::words::next_word;
use std::alloc::{AllocError, Global};
use std::io::{Read, Write};

fn parse_words<K: ScriptKind>(alloc: Global, line: &[u8]) -> Result<Option<K::Request>, AllocError>
    ensures { IfOk result (λ request. request ≡ request_from K.kind (words_of line.now)) }
{
    let Some((name, rest)) = next_word(line) else {
        return Ok(Some(K::nothing()));
    };
    if is_comment(name) {
        Ok(Some(K::nothing()))
    } else {
        K::parse_named(alloc, name, rest)
    }
}

/// Parses a line of a script of this kind. Returns `Ok(None)` for a bad line.
#[tactic(auto, unfolding(crate::specs::Kinds::request_of))]
pub fn parse<K: ScriptKind>(alloc: Global, line: &[u8]) -> Result<Option<K::Request>, AllocError>
    ensures { IfOk result (λ request. request ≡ request_of K.kind line.now) }
{
    if is_text(line) {
        parse_words::<K>(alloc, line)
    } else {
        Ok(None)
    }
}

/// A script between two lines.
#[derive(Drop)]
struct Session<K: ScriptKind> {
    alloc: Global,
    /// What is kept once a line made the ring.
    kept: Option<K::Kept>,
    /// The line that ended the run, if there was memory to keep it.
    last: Option<LastLine>,
}

impl<K: ScriptKind> Session<K> {
    fn new(alloc: Global) -> Session<K>
        ensures { result.kept ≡ None }
    {
        Session {
            alloc,
            kept: None,
            last: None,
        }
    }

    // Serves a request before the ring is made.
    fn serve_first(
        &mut self,
        number: u64,
        request: &K::Request,
        reply: &mut String,
    ) -> Result<bool, AllocError>
        requires { self.old.kept ≡ None }
        ensures { IfOk result (λ goes_on.
            ActsAt K.stands (λ wanting state.
            K.kind.first_served number request.now) None self.new.kept (string_bytes reply.old)
            (string_bytes reply.new) goes_on) }
    {
        match K::first(self.alloc, request)? {
            First::Nothing => Ok(true),
            First::Made { log2, kept } => {
                say_ring(log2, reply)?;
                self.kept = Some(kept);
                Ok(true)
            }
            First::Fault(name) => {
                say_fault(number, name, reply)?;
                Ok(false)
            }
        }
    }

    fn serve_request(
        &mut self,
        number: u64,
        request: &K::Request,
        reply: &mut String,
    ) -> Result<bool, AllocError>
        ensures { IfOk result (λ goes_on.
            ActsAt K.stands (λ wanting state.
            request_effect K.kind number wanting request.now state) self.old.kept self.new.kept
            (string_bytes reply.old) (string_bytes reply.new) goes_on) }
    {
        match &mut self.kept {
            Some(kept) => K::serve_made(kept, number, request, reply),
            None => self.serve_first(number, request, reply),
        }
    }

    fn serve_text(
        &mut self,
        number: u64,
        line: &[u8],
        reply: &mut String,
    ) -> Result<bool, AllocError>
        requires { length line.now ≤ 4096 }
        ensures { IfOk result (λ goes_on.
            ActsAt K.stands (λ wanting state.
            line_effect K.kind number wanting line.now state) self.old.kept self.new.kept
            (string_bytes reply.old) (string_bytes reply.new) goes_on) }
    {
        match parse::<K>(self.alloc, line)? {
            Some(request) => self.serve_request(number, &request, reply),
            None => {
                say_fault(number, "bad line", reply)?;
                Ok(false)
            }
        }
    }
}

impl<K: ScriptKind> Session<K> {
    /// Keeps the line that ended the run, if there is memory for it.
    fn keep(&mut self, number: u64, line: &[u8], answer: &[u8])
        ensures kept { self.new.kept ≡ self.old.kept }
        ensures number { IfSome self.new.last (λ last. last.number ≡ number) }
        ensures text { IfSome self.new.last (λ last. last.text.items ≡ line.now) }
    {
        self.last = LastLine::new(self.alloc, number, line, answer).ok();
    }

    fn serve_and_keep(
        &mut self,
        number: u64,
        line: &[u8],
        reply: &mut String,
    ) -> Result<bool, AllocError>
        requires { length line.now ≤ 4096 }
        ensures acts { IfOk result (λ goes_on.
            ActsAt K.stands (λ wanting state.
            line_effect K.kind number wanting line.now state) self.old.kept self.new.kept
            (string_bytes reply.old) (string_bytes reply.new) goes_on) }
        ensures last { IfOk result (λ goes_on. goes_on ≡ false
            → IfSome self.new.last (λ last. IsLine last number line.now)) }
    {
        let from = reply.len();
        let goes_on = self.serve_text(number, line, reply)?;
        if !goes_on {
            let answer = reply.as_bytes().get(from..).unwrap_or_default();
            self.keep(number, line, answer);
        }
        Ok(goes_on)
    }

    /// Shows that the kind's `holds` holds of each state that what is kept stands for. It does nothing.
    fn holds(&self)
        ensures { Holds K.kind K.stands self.now.kept }
    {
        if let Some(kept) = &self.kept {
            K::holds(kept);
        }
    }
}

impl<K: ScriptKind> Interpreter for Session<K> {
    ghost use Rattle.std.specs.Prelude.{⊤};
    ghost use Rattle.script.specs.Giving.{MayGive};
    ghost use Rattle.script.specs.GivingLaws as laws;

    ghost gives = { λ session number lines outcome. MayGive K.kind K.stands session.kept number lines outcome };

    ghost knows = { λ session lines. ⊤ };

    ghost ended_at = { λ session number line. IfSome session.last (λ last. IsLine last number line) };

    ghost nothing_left = { λ session n. laws.nothing_left K.kind K.stands session.kept n };

    ghost long_line = { λ session n line lines long. laws.long_line K.kind K.stands session.kept n line lines long };

    ghost begins = { λ session n lines. laws.begins K.kind K.stands session.kept n lines };

    ghost cut = { λ session n lines outcome front rest may split. laws.cut K.kind K.stands session.kept n lines outcome front rest may split };

    fn serve_line(
        &mut self,
        number: u64,
        line: &[u8],
        reply: &mut String,
    ) -> Result<bool, AllocError> {
        let goes_on = self.serve_and_keep(number, line, reply)?;
        self.holds();
        Ok(goes_on)
    }

    fn hear_of_long_line(&mut self, number: u64, reply: &str) {
        self.keep(number, b"", reply.as_bytes());
    }
}

/// Reads a script of this kind, serves its lines in order, and writes their answers. Also returns the line that ended
/// the run, or None if no line did or there is no memory to keep it.
///
/// Each answer is written and flushed before the read that follows its line. A `write` may take any count from 1 on,
/// and interrupted calls are retried.
pub fn serve_to_last_line<K: ScriptKind, R: Read, W: Write>(
    alloc: Global,
    input: &mut R,
    output: &mut W,
) -> (Result<Ending, ServeError>, Option<LastLine>)
    ensures serves { Serves (MayAnswer K.kind) result.0 (R.remaining input.old)
        (R.remaining input.new) (W.contents output.old) (W.contents output.new) }
    ensures last { IfOk result.0 (λ ending. ending ≡ Ending.Refused
        → IfSome result.1 (λ last.
        EndedBy (MayAnswer K.kind) last (R.remaining input.old) (W.contents output.old)
        (W.contents output.new))) }
{
    let mut session = Session::<K>::new(alloc);
    let served = serve(alloc, &mut session, input, output);
    (served, session.last)
}

/// The same, without the line that ended the run.
pub fn serve_script<K: ScriptKind, R: Read, W: Write>(
    alloc: Global,
    input: &mut R,
    output: &mut W,
) -> Result<Ending, ServeError>
    ensures { Serves (MayAnswer K.kind) result (R.remaining input.old) (R.remaining input.new)
        (W.contents output.old) (W.contents output.new) }
{
    serve_to_last_line::<K, R, W>(alloc, input, output).0
}
