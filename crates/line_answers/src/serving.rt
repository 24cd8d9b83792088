//! Lines of a kind, answered from any reader to any writer.
ghost use Rattle.std.specs.Prelude.{◌≡◌};
ghost use Rattle.line_answers.specs.Tellings.{TellsOfLines, judged};

use crate::answering::Answering;
use crate::kind::AnswersLines;
use crate::notes::Notes;
use script::{Status, serve, status_of};
use std::alloc::Global;
use std::io::{Read, Write};

/// Reads lines and writes the answer to each. Returns how it went, refused if any line isn't good, and notes on why
/// those weren't.
///
/// Each answer is written and flushed before the read that follows its line. A line of over 4,096 bytes ends the run.
pub fn answer_lines_with_notes<K: AnswersLines, R: Read, W: Write>(
    alloc: Global,
    kind: K,
    input: &mut R,
    output: &mut W,
) -> (Status, Notes)
    ensures { TellsOfLines (K.answer_of kind) result.0 (R.remaining input.old)
        (R.remaining input.new) (W.contents output.old) (W.contents output.new) }
{
    let mut answering = Answering::new(alloc, kind);
    let served = serve(alloc, &mut answering, input, output);
    let (all_good, notes) = answering.ended();
    (judged(status_of(&served), all_good), notes)
}

/// The same without the notes.
pub fn answer_lines<K: AnswersLines, R: Read, W: Write>(
    alloc: Global,
    kind: K,
    input: &mut R,
    output: &mut W,
) -> Status
    ensures { TellsOfLines (K.answer_of kind) result (R.remaining input.old) (R.remaining input.new)
        (W.contents output.old) (W.contents output.new) }
{
    answer_lines_with_notes(alloc, kind, input, output).0
}

/// Returns the status of a run, given whether all lines were good.
pub fn judged(status: Status, all_good: bool) -> Status
    ensures { result ≡ judged status all_good }
{
    match status {
        Status::Good => {
            if all_good {
                Status::Good
            } else {
                Status::Refused
            }
        }
        other => other,
    }
}
