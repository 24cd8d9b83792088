//! Answering lines of a kind, one after another.
ghost use Rattle.std.specs.Prelude.{◌≡◌, ◌&&◌, true};

use crate::kind::AnswersLines;
use crate::notes::Notes;
use script::Interpreter;
use std::alloc::{AllocError, Global};

/// Answers lines, and keeps whether all were good.
#[derive(Drop)]
pub(crate) struct Answering<K: AnswersLines> {
    alloc: Global,
    kind: K,
    all_good: bool,
    notes: Notes,
}

impl<K: AnswersLines> Answering<K> {
    pub(crate) fn new(alloc: Global, kind: K) -> Answering<K>
        ensures good { result.all_good ≡ true }
        ensures kind { result.kind ≡ kind }
    {
        Answering {
            alloc,
            kind,
            all_good: true,
            notes: Notes::new(alloc),
        }
    }

    /// Returns whether all lines were good, and the notes on those that weren't.
    pub(crate) fn ended(self) -> (bool, Notes)
        ensures { result.0 ≡ self.all_good }
    {
        (self.all_good, self.notes)
    }

    /// Keeps whether a line was good, and notes why it wasn't.
    fn judge(&mut self, is_good: bool, number: u64, line: &[u8])
        ensures good { self.new.all_good ≡ (self.old.all_good && is_good) }
        ensures kind { self.new.kind ≡ self.old.kind }
    {
        if !is_good {
            self.all_good = false;
            self.notes.add(self.alloc, &self.kind, number, line);
        }
    }
}

impl<K: AnswersLines> Interpreter for Answering<K> {
    ghost use Rattle.line_answers.specs.Answering.{Comes, all_good};
    ghost use Rattle.line_answers.specs.AnsweringLaws as laws;
    ghost use Rattle.std.specs.Prelude.{⊤};

    ghost gives = { λ answering number lines outcome. Comes (K.answer_of answering.kind) number lines outcome };

    ghost knows = { λ answering lines. answering.all_good ≡ all_good (K.answer_of answering.kind) lines };

    ghost ended_at = { λ answering number line. ⊤ };

    ghost nothing_left = { λ answering n. laws.nothing_left (K.answer_of answering.kind) n };

    ghost long_line = { λ answering n line lines long. laws.long_line (K.answer_of answering.kind) n line lines long };

    ghost begins = { λ answering n lines. laws.begins (K.answer_of answering.kind) n lines };

    ghost cut = { λ answering n lines outcome front rest comes split. laws.cut (K.answer_of answering.kind) n lines outcome front rest comes split };

    fn serve_line(
        &mut self,
        number: u64,
        line: &[u8],
        reply: &mut String,
    ) -> Result<bool, AllocError> {
        let is_good = self.kind.say_line(line, reply)?;
        self.judge(is_good, number, line);
        Ok(true)
    }

    fn hear_of_long_line(&mut self, number: u64, _reply: &str) {
        self.notes.note_long_line(self.alloc, number);
    }
}
