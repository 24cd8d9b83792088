//! `image` from any reader to any writer.
ghost use Rattle.std.specs.Prelude.{◌≡◌, ◌≢◌, ◌*◌, ◌++◌, ◌^◌, ◌⊎◌, ℕ, List, Option, None, Ok, Err, IfErr, IfSome, IsErrAnd, OnErr, OnOk, length, string_bytes, false, true};
ghost use Rattle.std.specs.Io.KnownBytes.{Appends};
ghost use Rattle.qindex.specs.Positions.{size};
ghost use Rattle.script.specs.Errors.{is_endless, is_read};
ghost use Rattle.script.specs.Serving.{WritesFront};
ghost use Rattle.script.specs.Writing.{ReadsAtLeast};
ghost use Rattle.image.specs.Dumps.{dump_image};
ghost use Rattle.image.specs.Queues.{HasFault, IsKnown, IsShown, fault_text};
ghost use Rattle.image.specs.Showings.{Moved};
ghost use Rattle.image.specs.Tellings.{HasHint, IsHint, Serves, TellsOfBytes, TellsOfImage};
ghost use Rattle.image.specs.Views.{Answer, answer_in, answer_to, image_of, lines_shown, refusal, shown_as, view};

use crate::answered::Answered;
use crate::asked::Asked;
use crate::dump::{DumpError, read_dump};
use crate::fault::{ImageFault, say_fault};
use crate::hint::Hint;
use crate::lines::say_heading;
use crate::queue::Queue;
use crate::reading::read_image;
use crate::request::{Request, Shown};
use crate::showing::{show_slots, show_waiting};
use crate::state::say_state;
use script::{ServeError, Status, tell_of_memory, write_whole};
use std::alloc::{AllocError, Global};
use std::io::{Read, Write};

/// Appends the lines that are asked for to the gathered text.
fn show_lines<W: Write>(
    image: &[u8],
    queue: &Queue,
    all: bool,
    output: &mut W,
    text: &mut String,
) -> Result<(), ServeError>
    requires shown { IsShown queue.now }
    requires image { length image.now ≡ 16 * size queue.now.cons.geometry }
    ensures ok { OnOk result (Moved (W.contents output.old) (W.contents output.new)
        (string_bytes text.old) (string_bytes text.new) (lines_shown image.now queue.now all)) }
    ensures err { OnErr result (WritesFront (W.contents output.old) (W.contents output.new)
        (string_bytes text.old ++ lines_shown image.now queue.now all)) }
    ensures read { IfErr result (λ e. is_read e ≡ false) }
    ensures endless { IfErr result (λ e. is_endless e ≡ false) }
{
    if all {
        show_slots(image, queue, output, text)
    } else {
        show_waiting(image, queue, output, text)
    }
}

/// Shows a queue whose image has 16 bytes a slot. After an `Err` a beginning of that was written.
fn show<W: Write>(
    alloc: Global,
    image: &[u8],
    queue: &Queue,
    shown: Shown,
    output: &mut W,
) -> Result<(), ServeError>
    requires shown { IsShown queue.now }
    requires image { length image.now ≡ 16 * size queue.now.cons.geometry }
    ensures ok { OnOk result (Appends (W.contents output.old) (W.contents output.new)
        (view image.now queue.now shown)) }
    ensures err { OnErr result (WritesFront (W.contents output.old) (W.contents output.new)
        (view image.now queue.now shown)) }
    ensures read { IfErr result (λ e. is_read e ≡ false) }
    ensures endless { IfErr result (λ e. is_endless e ≡ false) }
{
    let mut text = String::new(alloc);
    if let Err(e) = say_heading(queue, &mut text) {
        return Err(ServeError::Memory(e));
    }
    show_lines(image, queue, shown.all, output, &mut text)?;
    if let Err(e) = say_state(alloc, image, queue, shown.error, &mut text) {
        return Err(ServeError::Memory(e));
    }
    write_whole(output, text.as_bytes())
}

/// Writes the one line of a fault.
fn refuse<W: Write>(alloc: Global, fault: ImageFault, output: &mut W) -> Result<(), ServeError>
    ensures ok { OnOk result (Appends (W.contents output.old) (W.contents output.new)
        (fault_text fault)) }
    ensures err { OnErr result (WritesFront (W.contents output.old) (W.contents output.new)
        (fault_text fault)) }
    ensures read { IfErr result (λ e. is_read e ≡ false) }
    ensures endless { IfErr result (λ e. is_endless e ≡ false) }
{
    let mut text = String::new(alloc);
    if let Err(e) = say_fault(fault, &mut text) {
        return Err(ServeError::Memory(e));
    }
    write_whole(output, text.as_bytes())
}

/// Writes the one line of a fault, as the answer.
fn answer_fault<W: Write>(
    alloc: Global,
    asked: &Asked,
    fault: ImageFault,
    output: &mut W,
) -> Result<Answered, ServeError>
    ensures answer { Serves result (refusal asked.now.cons fault) (W.contents output.old)
        (W.contents output.new) }
    ensures read { IfErr result (λ e. is_read e ≡ false) }
    ensures endless { IfErr result (λ e. is_endless e ≡ false) }
{
    match refuse(alloc, fault, output) {
        Ok(()) => Ok(Answered {
            good: false,
            hint: Hint::of_fault(fault, asked),
        }),
        Err(e) => Err(e),
    }
}

/// Shows a queue whose image has 16 bytes a slot, as the answer.
fn answer_view<W: Write>(
    alloc: Global,
    image: &[u8],
    queue: &Queue,
    shown: Shown,
    output: &mut W,
) -> Result<Answered, ServeError>
    requires shown { IsShown queue.now }
    requires image { length image.now ≡ 16 * size queue.now.cons.geometry }
    ensures answer { Serves result (shown_as image.now queue.now shown) (W.contents output.old)
        (W.contents output.new) }
    ensures endless { IfErr result (λ e. is_endless e ≡ false) }
{
    match show(alloc, image, queue, shown, output) {
        Ok(()) => Ok(Answered {
            good: true,
            hint: Hint::of_view(image, queue),
        }),
        Err(e) => Err(e),
    }
}

/// Answers the image of a queue.
fn answer<W: Write>(
    alloc: Global,
    image: &[u8],
    asked: &Asked,
    request: &Request,
    output: &mut W,
) -> Result<Answered, ServeError>
    requires { IsKnown request.now.known }
    ensures answer { Serves result (answer_in asked.now.cons (Ok request.now) (Ok image.now))
        (W.contents output.old) (W.contents output.new) }
    ensures endless { IfErr result (λ e. is_endless e ≡ false) }
{
    match request.known.queue_in(image.len()) {
        Ok(queue) => answer_view(alloc, image, &queue, request.shown, output),
        Err(fault) => answer_fault(alloc, asked, fault, output),
    }
}

/// Answers the text of a dump of a queue.
fn answer_dump<W: Write>(
    alloc: Global,
    text: &[u8],
    asked: &Asked,
    request: &Request,
    output: &mut W,
) -> Result<Answered, ServeError>
    requires { IsKnown request.now.known }
    ensures answer { Serves result (answer_in asked.now.cons (Ok request.now) (dump_image text.now))
        (W.contents output.old) (W.contents output.new) }
    ensures endless { IfErr result (λ e. is_endless e ≡ false) }
{
    match read_dump(alloc, text) {
        Ok(image) => answer(alloc, image.as_slice(), asked, request, output),
        Err(DumpError::BadLine(number)) => {
            answer_fault(alloc, asked, ImageFault::BadLine(number), output)
        }
        Err(DumpError::Memory(e)) => Err(ServeError::Memory(e)),
    }
}

/// Answers what was read of a queue: its image, or the text of a dump.
fn answer_input<W: Write>(
    alloc: Global,
    input: &[u8],
    asked: &Asked,
    request: &Request,
    output: &mut W,
) -> Result<Answered, ServeError>
    requires { IsKnown request.now.known }
    ensures answer { Serves result (answer_in asked.now.cons (Ok request.now)
        (image_of asked.now.hex input.now)) (W.contents output.old) (W.contents output.new) }
    ensures endless { IfErr result (λ e. is_endless e ≡ false) }
{
    if asked.hex {
        answer_dump(alloc, input, asked, request, output)
    } else {
        answer(alloc, input, asked, request, output)
    }
}

/// Judges what is asked, then reads the image and answers it.
fn serve<R: Read, W: Write>(
    alloc: Global,
    asked: &Asked,
    input: &mut R,
    output: &mut W,
) -> Result<Answered, ServeError>
    ensures answer { IfSome (R.remaining input.old) (λ bytes.
        Serves result (answer_to asked.now bytes) (W.contents output.old) (W.contents output.new)) }
    ensures endless { IfErr result (λ e. is_endless e ≡ true
        → ReadsAtLeast (2 ^ 63) (R.remaining input.old) (R.remaining input.new)) }
    ensures unread { HasFault asked.now → R.remaining input.new ≡ R.remaining input.old }
    ensures judged { HasFault asked.now
        → IfErr result (λ e. (is_read e ≡ false) × (is_endless e ≡ false)) }
{
    match Request::of(asked) {
        Ok(request) => match read_image(alloc, input) {
            Ok(bytes) => answer_input(alloc, bytes.as_slice(), asked, &request, output),
            Err(e) => Err(e),
        },
        Err(fault) => answer_fault(alloc, asked, fault, output),
    }
}

/// Tells that memory ran out, after a beginning of an answer was written.
fn tell<W: Write>(output: &mut W, e: AllocError) -> Status
    ensures memory { (result ≡ Status.NoMemory) ⊎ (result ≡ Status.WriteFailed) }
    ensures told { (answer : Answer) (before : Option (List ℕ))
        → WritesFront before (W.contents output.old) answer.text
        → TellsOfBytes result answer before (W.contents output.new) }
{
    match tell_of_memory(output, e) {
        ServeError::Memory(_) => Status::NoMemory,
        ServeError::Read(_) | ServeError::Write(_) | ServeError::Endless => Status::WriteFailed,
    }
}

/// Returns the status of what was served, once a lack of memory is told, and the hint.
fn finish<W: Write>(served: Result<Answered, ServeError>, output: &mut W) -> (Status, Option<Hint>)
    ensures endless { result.0 ≡ Status.Endless → IsErrAnd served (λ e. is_endless e ≡ true) }
    ensures read { result.0 ≡ Status.ReadFailed → IsErrAnd served (λ e. is_read e ≡ true) }
    ensures told { (answer : Answer) (before : Option (List ℕ))
        → Serves served answer before (W.contents output.old)
        → TellsOfBytes result.0 answer before (W.contents output.new) }
    ensures hint { (answer : Answer) (before : Option (List ℕ))
        → Serves served answer before (W.contents output.old) → IsHint result.0 result.1 answer }
    ensures none { result.0 ≢ Status.Good → result.0 ≢ Status.Refused → result.1 ≡ None }
{
    match served {
        Ok(answered) if answered.good => (Status::Good, answered.hint),
        Ok(answered) => (Status::Refused, answered.hint),
        Err(ServeError::Memory(e)) => (tell(output, e), None),
        Err(ServeError::Read(_)) => (Status::ReadFailed, None),
        Err(ServeError::Write(_)) => (Status::WriteFailed, None),
        Err(ServeError::Endless) => (Status::Endless, None),
    }
}

/// Reads the memory of a queue, 16 bytes a slot in the order of the slots, or a hex dump of it, and writes what its
/// registers make of it: five lines, then a line for each command that waits, or for each slot, and if the error
/// registers are given, a last line that says what holds the queue up. Returns how it went, and what may help with a
/// refusal or with commands that can't be right.
///
/// Bad registers, a bad line of a dump and an image of another length are refused with one line. What doesn't depend on
/// the image is judged before anything is read, and all is read before anything is written.
pub fn image_with_hint<R: Read, W: Write>(
    alloc: Global,
    asked: &Asked,
    input: &mut R,
    output: &mut W,
) -> (Status, Option<Hint>)
    ensures told { TellsOfImage asked.now result.0 (R.remaining input.old) (R.remaining input.new)
        (W.contents output.old) (W.contents output.new) }
    ensures hint { HasHint asked.now result.0 result.1 (R.remaining input.old) }
{
    finish(serve(alloc, asked, input, output), output)
}

/// The same without the hint.
pub fn image<R: Read, W: Write>(
    alloc: Global,
    asked: &Asked,
    input: &mut R,
    output: &mut W,
) -> Status
    ensures { TellsOfImage asked.now result (R.remaining input.old) (R.remaining input.new)
        (W.contents output.old) (W.contents output.new) }
{
    image_with_hint(alloc, asked, input, output).0
}
