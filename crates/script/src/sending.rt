//! Writing all of some bytes.
ghost use Rattle.std.specs.Prelude.{◌≡◌, ◌≤◌, ◌⊎◌, IfErr, OnOk, OnErr, length, take, true, false};
ghost use Rattle.std.specs.Io.KnownBytes.{Appends};
ghost use Rattle.script.specs.Errors.{is_memory, is_write};
ghost use Rattle.script.specs.Serving.{WritesFront};
ghost use Rattle.script.specs.Writing.{no_memory_line};

use crate::error::ServeError;
use std::alloc::AllocError;
use std::io;
use std::io::{ErrorKind, Write};

/// Writes the line `no memory`, and takes no memory for it. Returns the error that ends the run.
pub fn tell_of_memory<W: Write>(output: &mut W, e: AllocError) -> ServeError
    ensures told { is_memory result ≡ true
        → Appends (W.contents output.old) (W.contents output.new) no_memory_line }
    ensures part { WritesFront (W.contents output.old) (W.contents output.new) no_memory_line }
    ensures error { (result ≡ ServeError.Memory e) ⊎ (is_write result ≡ true) }
{
    match write_whole(output, b"no memory\n".as_slice()) {
        Ok(()) => ServeError::Memory(e),
        Err(failed) => failed,
    }
}

/// Writes all of the bytes, and flushes. After an `Err` a front of them was written.
pub fn write_whole<W: Write>(output: &mut W, bytes: &[u8]) -> Result<(), ServeError>
    ensures ok { OnOk result (Appends (W.contents output.old) (W.contents output.new) bytes.now) }
    ensures err { OnErr result (WritesFront (W.contents output.old) (W.contents output.new)
        bytes.now) }
    ensures error { IfErr result (λ e. is_write e ≡ true) }
{
    let (_, sent) = send(output, bytes);
    if let Err(e) = sent {
        return Err(ServeError::Write(e));
    }
    match output.flush() {
        Ok(()) => Ok(()),
        Err(e) => Err(ServeError::Write(e)),
    }
}

// Writes all of the bytes, and returns how many were taken: on an error, those before it.
fn send<W: Write>(output: &mut W, bytes: &[u8]) -> (usize, io::Result<()>)
    ensures bound { result.0 ≤ length bytes.now }
    ensures taken { Appends (W.contents output.old) (W.contents output.new)
        (take result.0 bytes.now) }
    ensures all { OnOk result.1 (result.0 ≡ length bytes.now) }
{
    let mut taken = 0;
    'writes: for _ in 0..u64::MAX {
        if taken >= bytes.len() {
            return (taken, Ok(()));
        }
        match output.write(&bytes[taken..]) {
            Ok(0) => return (taken, Err(io::Error::from(ErrorKind::WriteZero))),
            Ok(count) => taken += count,
            Err(e) => {
                if e.kind() != ErrorKind::Interrupted {
                    return (taken, Err(e));
                }
            }
        }
    }
    (taken, Err(io::Error::from(ErrorKind::TimedOut)))
}
