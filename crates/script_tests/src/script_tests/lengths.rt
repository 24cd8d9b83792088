//! An interpreter for tests.
use script::{Ending, Interpreter, ServeError, serve};
use std::alloc::{AllocError, Global};
use std::fmt::Write as _;
use std::io::{Read, Write};

// Answers each line with its number and its length, and ends the run at the line `stop`.
#[derive(Drop)]
struct Lengths;

impl Interpreter for Lengths {
    ghost gives = { λ _ _ _ _. Unit {0} };

    ghost knows = { λ _ _. Unit {0} };

    ghost ended_at = { λ _ _ _. Unit {0} };

    fn serve_line(
        &mut self,
        number: u64,
        line: &[u8],
        reply: &mut String,
    ) -> Result<bool, AllocError> {
        if line == b"stop".as_slice() {
            write!(reply, "stopped at {number}\n")?;
            return Ok(false);
        }
        let length = line.len();
        write!(reply, "{number}: {length}\n")?;
        Ok(true)
    }

    fn hear_of_long_line(&mut self, _number: u64, _reply: &str) {}

    ghost nothing_left = { λ _ _. tt };

    ghost long_line = { λ _ _ _ _ _. tt };

    ghost begins = { λ _ _ _. tt };

    ghost cut = { λ _ _ _ _ _ _ _ _. tt };
}

// The theorem of `serve` isn't passed on, since it would be costly in each test.
/// Serves lines by their lengths.
pub fn serve_lengths<R: Read, W: Write>(
    alloc: Global,
    input: &mut R,
    output: &mut W,
) -> Result<Ending, ServeError> {
    serve(alloc, &mut Lengths, input, output)
}
