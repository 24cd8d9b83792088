//! What is said of a line.
ghost use Rattle.std.specs.Prelude.{IfOk, IfSome, string_bytes};
ghost use Rattle.explanations.specs.Explaining.{IsSaidOf};

use crate::expected::Expected;
use crate::fault::{fault_in, meaning, step_fault};
use crate::form::{Form, form_of};
use crate::misread::Misread;
use crate::stray::Stray;
use crate::words::Words;
use crate::{replay_forms, schedule_forms};
use ringcore::StepFault;
use script::LastLine;
use std::alloc::{AllocError, Global};
use std::fmt::{self, Display};

/// The kind of script, by its lines.
#[derive(Clone, Copy, Debug, PartialEq, Eq)]
pub enum Script {
    /// Those of `smmuq replay`.
    Replay,
    /// Those of `smmuq schedule`.
    Schedule,
}

impl Script {
    /// The form of a line of this name, if there is one.
    fn form_of(self, name: &[u8]) -> Option<Form> {
        match self {
            Script::Replay => form_of(&replay_forms::FORMS, name),
            Script::Schedule => form_of(&schedule_forms::FORMS, name),
        }
    }

    /// The form of a line for a ring that can be made.
    fn ring_form(self) -> Form {
        match self {
            Script::Replay => replay_forms::RING,
            Script::Schedule => schedule_forms::RING,
        }
    }
}

/// What is wrong with a line.
#[derive(Drop)]
enum Why<'a> {
    Stray(Stray),
    Misread(Misread<'a>),
    Step(StepFault),
    Line(&'static str),
}

impl fmt::Display for Why<'_> {
    fn fmt<W: fmt::Write>(&self, f: &mut fmt::Formatter<W>) -> fmt::Result {
        match self {
            Why::Stray(stray) => stray.fmt(f),
            Why::Misread(misread) => misread.fmt(f),
            Why::Step(fault) => fault.fmt(f),
            Why::Line(meaning) => f.write_str(meaning),
        }
    }
}

/// Finds the first word of a line that can't be read.
fn misread_in(script: Script, line: &[u8]) -> Result<(), Misread<'_>> {
    let mut words = Words::of(line);
    let name = words.expect(Expected::Name)?;
    match script.form_of(name) {
        Some(form) => words.expect_form(form),
        None => Err(words.misread(Expected::Name, name)),
    }
}

/// Finds the first number of a ring line that no ring can have.
fn bad_number(script: Script, line: &[u8]) -> Result<(), Misread<'_>> {
    let mut words = Words::of(line);
    words.expect(Expected::Name)?;
    words.expect_form(script.ring_form())
}

/// What is wrong with the words of a line, if one isn't as expected.
fn by_word<'a>(checked: Result<(), Misread<'a>>) -> Option<Why<'a>> {
    match checked {
        Ok(()) => None,
        Err(misread) => Some(Why::Misread(misread)),
    }
}

/// What is wrong with a line that can be read.
fn by_fault<'a>(fault: &str) -> Option<Why<'a>> {
    if let Some(fault) = step_fault(fault) {
        return Some(Why::Step(fault));
    }
    match meaning(fault) {
        Some(meaning) => Some(Why::Line(meaning)),
        None => None,
    }
}

/// What is wrong with a line that was answered with this fault.
fn reason<'a>(script: Script, fault: &str, line: &'a [u8]) -> Option<Why<'a>> {
    match fault {
        "bad line" => match Stray::first_of(line) {
            Some(stray) => Some(Why::Stray(stray)),
            None => by_word(misread_in(script, line)),
        },
        "N1" | "N2" | "N3" | "C4" => by_word(bad_number(script, line)),
        other => by_fault(other),
    }
}

/// What is said of the line of this number.
fn said(alloc: Global, number: u64, why: &Why<'_>) -> Result<String, AllocError>
    ensures { IfOk result (λ said. IsSaidOf number (string_bytes said)) }
{
    let why = format!(in alloc; "{why}")?;
    let mut said = format!(in alloc; "line {number}: ")?;
    said.push_str(why.as_str())?;
    Ok(said)
}

/// Explains the line that ended the run of a script: its number, which of its words is wrong and what was expected
/// there, or what is wrong with all of it. One line of text without its end, or None if the answer is no fault.
pub fn explain(alloc: Global, script: Script, last: &LastLine) -> Result<Option<String>, AllocError>
    ensures line { IfOk result (λ told.
        IfSome told (λ said. IsSaidOf last.now.number (string_bytes said))) }
{
    let Some(fault) = fault_in(last.answer.as_slice()) else {
        return Ok(None);
    };
    let Some(why) = reason(script, fault, last.text.as_slice()) else {
        return Ok(None);
    };
    Ok(Some(said(alloc, last.number, &why)?))
}
