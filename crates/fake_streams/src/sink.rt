//! A writer that keeps what it is given.
ghost use Rattle.std.specs.Prelude.{◌≡◌, [], codes};
ghost use Rattle.std.specs.Str.{IsUtf8};

use std::io;
use std::io::{ErrorKind, Write};
use std::marker::Model;

/// The most bytes that are kept. Later calls take nothing.
const MOST_KEPT: usize = 4096;

/// Keeps what it is given, at most `most` bytes a call. Call number `bad`, counted from 1, fails; 0 is no call.
#[derive(Drop)]
pub struct Sink {
    kept: [u8; MOST_KEPT],
    len: usize,
    most: usize,
    bad: usize,
    kind: ErrorKind,
    /// How many calls of `write` were made.
    pub calls: usize,
    /// How many calls of `flush` were made.
    pub flushes: usize,
}

impl Model for Sink {
    ghost use Rattle.std.specs.Prelude.{◌≤◌, take};
    ghost use Rattle.fake_streams.specs.Streams.{SinkValue};

    ghost Value = { SinkValue };

    ghost view = { λ s. record { kept = take s.len s.kept; calls = s.calls; flushes = s.flushes; bad = s.bad; kind = s.kind } };

    ghost invariant = { λ s. s.len ≤ 4096 };
}

impl Write for Sink {
    ghost use Rattle.std.specs.Prelude.{IsOk, Some};
    ghost use Rattle.std.specs.Io.{WritesAtMost};
    ghost use Rattle.std.specs.Io.KnownBytes.{Keeps, WriteAppends};
    ghost use Rattle.fake_streams.specs.Streams.{FailsWhere, one_more};

    ghost contents = { λ s. Some s.kept };

    fn write(&mut self, buf: &[u8]) -> io::Result<usize>
        ensures bound { WritesAtMost result buf.now }
        ensures bytes { WriteAppends (Some self.old.kept) (Some self.new.kept) result buf.now }
        ensures calls { self.new.calls ≡ one_more self.old.calls }
        ensures stays { self.new.bad ≡ self.old.bad }
        ensures kind { self.new.kind ≡ self.old.kind }
        ensures flushes { self.new.flushes ≡ self.old.flushes }
        ensures fails { FailsWhere self.new.calls self.old.bad self.old.kind result }
    {
        self.calls = self.calls.saturating_add(1);
        if self.calls == self.bad {
            return Err(io::Error::from(self.kind));
        }
        if self.len >= self.kept.len() {
            return Ok(0);
        }
        let count = buf.len().min(self.most).min(self.kept.len() - self.len);
        let end = self.len + count;
        self.kept[self.len..end].copy_from_slice(&buf[..count]);
        self.len = end;
        Ok(count)
    }

    fn flush(&mut self) -> io::Result<()>
        ensures bytes { Keeps (Some self.old.kept) (Some self.new.kept) }
        ensures counted { self.new ≡ record self.old { flushes = one_more self.old.flushes } }
        ensures served { IsOk result }
    {
        self.flushes = self.flushes.saturating_add(1);
        Ok(())
    }
}

impl Sink {
    /// Returns an empty writer that fails in this way.
    pub fn new(most: usize, bad: usize, kind: ErrorKind) -> Sink
        ensures { result ≡ record { kept = []; calls = 0; flushes = 0; bad = bad; kind = kind } }
    {
        Sink {
            kept: [0; MOST_KEPT],
            len: 0,
            most,
            bad,
            kind,
            calls: 0,
            flushes: 0,
        }
    }

    /// Returns what was written, or `no text` if it isn't UTF-8.
    pub fn text(&self) -> &str
        ensures text { IsUtf8 self.now.kept → result.now ≡ self.now.kept }
        ensures none { ¬ IsUtf8 self.now.kept → result.now ≡ codes "no text" }
    {
        str::from_utf8(self.kept.get(..self.len).unwrap_or_default()).unwrap_or("no text")
    }
}
