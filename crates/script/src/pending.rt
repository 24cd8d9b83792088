//! Bytes that were read and not served yet.
ghost use Rattle.std.specs.Prelude.{◌≡◌, ◌++◌, ◌≤◌, ◌<◌, ◌+◌, ℕ, List, [], IfOk, OnOk, OnErr, length, take, drop, true, false};
ghost use Rattle.std.specs.Io.KnownBytes.{Consumes, IsAtEnd, Keeps};

use std::alloc::{AllocError, Global};
use std::io;
use std::io::{ErrorKind, Read};
use std::marker::Model;

/// The most bytes that are held.
const CAPACITY: usize = 65_536;

/// The bytes that were read and not served yet. Contracts see it as the list of them.
#[derive(Drop)]
pub(crate) struct Pending {
    buffer: Vec<u8>,
    at: usize,
    filled: usize,
}

impl Model for Pending {
    ghost use Rattle.std.specs.Prelude.{◌≡◌, ◌≤◌, ℕ, List, take, drop, length, vec_len};

    ghost Value = { List ℕ };

    ghost view = { λ p. drop p.at (take p.filled p.buffer.items) };

    ghost invariant = { λ p. (p.at ≤ p.filled) × (p.filled ≤ 65536) × (length p.buffer.items ≡ 65536) × (vec_len p.buffer ≡ 65536) };
}

impl Pending {
    pub(crate) fn new(alloc: Global) -> Result<Pending, AllocError>
        ensures { IfOk result (λ pending. pending ≡ []) }
    {
        Ok(Pending {
            buffer: vec![in alloc; 0; CAPACITY]?,
            at: 0,
            filled: 0,
        })
    }

    pub(crate) fn as_slice(&self) -> &[u8]
        ensures value { result.now ≡ self.now }
        ensures bound { length self.now ≤ 65536 }
    {
        &self.buffer[self.at..self.filled]
    }

    /// Removes bytes from the front.
    pub(crate) fn skip(&mut self, count: usize)
        requires { count ≤ length self.old }
        ensures { self.new ≡ drop count self.old }
    {
        self.at += count;
    }

    /// Reads once and appends the bytes. Returns false at the end of the input.
    pub(crate) fn fill<R: Read>(&mut self, reader: &mut R) -> io::Result<bool>
        requires { length self.old ≤ 4096 }
        ensures part { OnOk result ((part : List ℕ) × (self.new ≡ self.old ++ part)
            × Consumes (R.remaining reader.old) (R.remaining reader.new) part) }
        ensures more { IfOk result (λ more. more ≡ true → length self.old < length self.new) }
        ensures end { IfOk result (λ more. more ≡ false
            → (self.new ≡ self.old) × IsAtEnd (R.remaining reader.new)) }
        ensures err { OnErr result ((self.new ≡ self.old)
            × Keeps (R.remaining reader.old) (R.remaining reader.new)) }
    {
        self.buffer.copy_within(self.at..self.filled, 0);
        self.filled -= self.at;
        self.at = 0;
        let count = read_behind(reader, self.buffer.as_mut_slice(), self.filled)?;
        self.filled += count;
        Ok(count > 0)
    }
}

// Reads once into the buffer, after its first `held` bytes.
fn read_behind<R: Read>(reader: &mut R, buffer: &mut [u8], held: usize) -> io::Result<usize>
    requires { held < length buffer.old }
    ensures front { take held buffer.new ≡ take held buffer.old }
    ensures bound { IfOk result (λ count. held + count ≤ length buffer.new) }
    ensures ok { IfOk result (λ count.
        Consumes (R.remaining reader.old) (R.remaining reader.new)
        (take count (drop held buffer.new))) }
    ensures end { IfOk result (λ count. count ≡ 0 → IsAtEnd (R.remaining reader.new)) }
    ensures err { OnErr result (Keeps (R.remaining reader.old) (R.remaining reader.new)) }
{
    read_once(reader, &mut buffer[held..])
}

/// Reads once, and again if a signal interrupts the read.
pub fn read_once<R: Read>(reader: &mut R, buffer: &mut [u8]) -> io::Result<usize>
    ensures bound { IfOk result (λ count. count ≤ length buffer.new) }
    ensures ok { IfOk result (λ count.
        Consumes (R.remaining reader.old) (R.remaining reader.new) (take count buffer.new)) }
    ensures end { IfOk result (λ count. count ≡ 0 → 0 < length buffer.old
        → IsAtEnd (R.remaining reader.new)) }
    ensures err { OnErr result (Keeps (R.remaining reader.old) (R.remaining reader.new)) }
{
    'tries: for _ in 0..u64::MAX {
        match reader.read(buffer) {
            Ok(count) => return Ok(count),
            Err(e) => {
                if e.kind() != ErrorKind::Interrupted {
                    return Err(e);
                }
            }
        }
    }
    Err(io::Error::from(ErrorKind::TimedOut))
}
