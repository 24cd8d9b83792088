//! A reader that gives what another gives, in pieces.
ghost use Rattle.std.specs.Prelude.{◌≡◌};

use std::io;
use std::io::Read;
use std::marker::Model;

/// Gives what another reader gives, at most `most` bytes a call, but at least one.
#[derive(Drop)]
pub struct Pieces<R: Read> {
    inner: R,
    most: usize,
    /// How many bytes were given.
    pub given: usize,
}

impl<R: Read> Model for Pieces<R> {
    ghost use Rattle.std.specs.Prelude.{◌≤◌};
    ghost use Rattle.fake_streams.specs.Streams.{PiecesValue};

    ghost Value = { PiecesValue R };

    ghost view = { λ p. record { inner = p.inner; given = p.given } };

    ghost invariant = { λ p. 1 ≤ p.most };
}

impl<R: Read> Read for Pieces<R> {
    ghost remaining = { λ p. R.remaining p.inner };

    fn read(&mut self, buf: &mut [u8]) -> io::Result<usize> {
        let room = buf.len().min(self.most);
        let count = self.inner.read(&mut buf[..room])?;
        self.given = self.given.saturating_add(count);
        Ok(count)
    }
}

impl<R: Read> Pieces<R> {
    /// Returns a reader of pieces of this one.
    pub fn new(inner: R, most: usize) -> Pieces<R>
        ensures { result ≡ record { inner = inner; given = 0 } }
    {
        Pieces {
            inner,
            most: most.max(1),
            given: 0,
        }
    }
}
