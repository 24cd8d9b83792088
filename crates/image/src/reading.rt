//! Reading an image to its end.
ghost use Rattle.std.specs.Prelude.{◌≡◌, ◌<◌, ◌^◌, IfOk, IfErr, length, false, true};
ghost use Rattle.std.specs.Io.KnownBytes.{Consumes, IsAtEnd};
ghost use Rattle.script.specs.Errors.{is_endless, is_write};
ghost use Rattle.script.specs.Writing.{ReadsAtLeast};

use script::{ServeError, read_once};
use std::alloc::Global;
use std::io::Read;

/// How many bytes are read at a time.
const PIECE: usize = 65_536;

/// Reads all that a reader has left, in pieces of at most the length of `piece`.
fn read_by<R: Read>(alloc: Global, input: &mut R, piece: &mut [u8]) -> Result<Vec<u8>, ServeError>
    requires { 0 < length piece.old }
    ensures read { IfOk result (λ bytes.
        Consumes (R.remaining input.old) (R.remaining input.new) bytes.items) }
    ensures end { IfOk result (λ bytes. IsAtEnd (R.remaining input.new)) }
    ensures error { IfErr result (λ e. is_write e ≡ false) }
    ensures endless { IfErr result (λ e. is_endless e ≡ true
        → ReadsAtLeast (2 ^ 63) (R.remaining input.old) (R.remaining input.new)) }
{
    let mut bytes = Vec::new(alloc);
    'reads: for turn in 0..u64::MAX {
        let count = match read_once(input, piece) {
            Ok(count) => count,
            Err(e) => return Err(ServeError::Read(e)),
        };
        if count == 0 {
            return Ok(bytes);
        }
        if let Err(e) = bytes.extend_from_slice(&piece[..count]) {
            return Err(ServeError::Memory(e));
        }
    }
    Err(ServeError::Endless)
}

/// Reads all that a reader has left.
pub(crate) fn read_image<R: Read>(alloc: Global, input: &mut R) -> Result<Vec<u8>, ServeError>
    ensures read { IfOk result (λ bytes.
        Consumes (R.remaining input.old) (R.remaining input.new) bytes.items) }
    ensures end { IfOk result (λ bytes. IsAtEnd (R.remaining input.new)) }
    ensures error { IfErr result (λ e. is_write e ≡ false) }
    ensures endless { IfErr result (λ e. is_endless e ≡ true
        → ReadsAtLeast (2 ^ 63) (R.remaining input.old) (R.remaining input.new)) }
{
    match vec![in alloc; 0; PIECE] {
        Ok(mut piece) => read_by(alloc, input, piece.as_mut_slice()),
        Err(e) => Err(ServeError::Memory(e)),
    }
}
