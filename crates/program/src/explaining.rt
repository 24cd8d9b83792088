//! What is told on standard error of lines that can't be served.
ghost use Rattle.std.specs.Prelude.{◌≡◌, ◌⊎◌, Some};
ghost use Rattle.program.specs.Explaining.{MayBeTold, MayTellHint, MayTellOf, TellsOfLast, TellsOfLine, TellsOfRefusal};
ghost use Rattle.script.specs.Statuses.{exit_status};

use crate::telling::{try_line, try_text};
use crate::watched::Watched;
use explanations::{Script, explain};
use image::Hint;
use line_answers::Notes;
use script::{LastLine, Status};
use std::alloc::Global;
use std::io::Write;

/// Tells why a line was refused, if there is memory for that.
fn try_explanation<F: Write>(
    alloc: Global,
    script: Script,
    last: &LastLine,
    faults: &mut Watched<F>,
)
    ensures { (faults.new ≡ faults.old) ⊎ TellsOfLine last.now faults.old faults.new }
{
    if let Ok(Some(text)) = explain(alloc, script, last) {
        try_line(text.as_str(), faults);
    }
}

fn try_last_line<F: Write>(
    alloc: Global,
    script: Script,
    last: &Option<LastLine>,
    faults: &mut Watched<F>,
)
    ensures { MayTellOf last.now faults.old faults.new }
{
    if let Some(last) = last {
        try_explanation(alloc, script, last, faults);
    }
}

/// Returns the exit status of a script's run. If it was refused, tells why the line that ended it was, if one is kept.
pub(crate) fn exit_of_script<F: Write>(
    alloc: Global,
    script: Script,
    status: Status,
    last: &Option<LastLine>,
    faults: &mut Watched<F>,
) -> u8
    ensures exit { result ≡ exit_status status }
    ensures explained { TellsOfLast result last.now faults.old faults.new }
{
    if status == Status::Refused {
        try_last_line(alloc, script, last, faults);
    }
    status.exit_status()
}

/// Tells what may help with an image.
fn try_hint<F: Write>(alloc: Global, hint: Hint, faults: &mut Watched<F>)
    ensures { MayTellHint (Some hint) faults.old faults.new }
{
    if let Ok(text) = format!(in alloc; "{hint}") {
        try_line(text.as_str(), faults);
    }
}

/// Returns the exit status of an image, and tells what may help, if anything does.
pub(crate) fn exit_of_image<F: Write>(
    alloc: Global,
    status: Status,
    hint: Option<Hint>,
    faults: &mut Watched<F>,
) -> u8
    ensures exit { result ≡ exit_status status }
    ensures told { MayTellHint hint faults.old faults.new }
{
    if let Some(hint) = hint {
        try_hint(alloc, hint, faults);
    }
    status.exit_status()
}

/// Tells the notes on lines, and how many lines have none.
fn try_notes<F: Write>(alloc: Global, notes: &Notes, faults: &mut Watched<F>)
    ensures { MayBeTold faults.old faults.new }
{
    let left_out = notes.left_out();
    let text = notes.text();
    let told = if left_out == 0 {
        format!(in alloc; "{text}")
    } else {
        format!(in alloc; "{text}lines left out: {left_out}\n")
    };
    if let Ok(told) = told {
        try_text(told.as_str(), faults);
    }
}

/// Returns the exit status of lines that were answered. If the run was refused, tells why its lines were.
pub(crate) fn exit_of_lines<F: Write>(
    alloc: Global,
    status: Status,
    notes: &Notes,
    faults: &mut Watched<F>,
) -> u8
    ensures exit { result ≡ exit_status status }
    ensures explained { TellsOfRefusal result faults.old faults.new }
{
    if status == Status::Refused {
        try_notes(alloc, notes, faults);
    }
    status.exit_status()
}
