//! A writer that notes how its calls went.
ghost use Rattle.std.specs.Prelude.{◌≡◌, false, is_some, true};
ghost use Rattle.program.specs.Watching.{Notes};

use std::io;
use std::io::{ErrorKind, Write};
use std::marker::Model;

/// Passes what it is given on to another writer. Notes whether a call of that failed, and whether it was flushed since
/// it was last written to.
#[derive(Drop)]
pub struct Watched<W: Write> {
    inner: W,
    /// Why the newest call that failed did.
    failure: Option<io::Error>,
    /// Whether it failed because the other end was closed.
    is_closed: bool,
    is_flushed: bool,
}

impl<W: Write> Model for Watched<W> {
    ghost use Rattle.std.specs.Prelude.{is_some};
    ghost use Rattle.program.specs.Watching.{Seen};

    ghost Value = { Seen };

    ghost view = { λ w. record { bytes = W.contents w.inner; has_failed = is_some w.failure; is_closed = w.is_closed; is_flushed = w.is_flushed } };
}

impl<W: Write> Write for Watched<W> {
    ghost use Rattle.std.specs.Prelude.{OnOk};
    ghost use Rattle.std.specs.Io.{WritesAtMost};
    ghost use Rattle.std.specs.Io.KnownBytes.{Appends, Keeps, WriteAppends};

    ghost contents = { λ w. w.bytes };

    fn write(&mut self, buf: &[u8]) -> io::Result<usize>
        ensures bound { WritesAtMost result buf.now }
        ensures bytes { WriteAppends self.old.bytes self.new.bytes result buf.now }
        ensures notes { Notes false self.old self.new result }
    {
        let written = self.inner.write(buf);
        self.note(written, false)
    }

    fn flush(&mut self) -> io::Result<()>
        ensures bytes { Keeps self.old.bytes self.new.bytes }
        ensures notes { Notes true self.old self.new result }
    {
        let flushed = self.inner.flush();
        self.note(flushed, true)
    }

    fn write_all(&mut self, buf: &[u8]) -> io::Result<()>
        ensures bytes { OnOk result (Appends self.old.bytes self.new.bytes buf.now) }
        ensures notes { Notes false self.old self.new result }
    {
        let written = self.inner.write_all(buf);
        self.note(written, false)
    }
}

impl<W: Write> Watched<W> {
    /// Watches a writer from now on.
    pub fn new(inner: W) -> Watched<W>
        ensures { result
            ≡ record {
              bytes = W.contents inner;
              has_failed = false;
              is_closed = false;
              is_flushed =
                  true;
            } }
    {
        Watched {
            inner,
            failure: None,
            is_closed: false,
            is_flushed: true,
        }
    }

    /// Returns the writer.
    pub fn inner(&self) -> &W
        ensures { W.contents result.now ≡ self.now.bytes }
    {
        &self.inner
    }

    /// Returns why the newest call that failed did, if one did.
    pub(crate) fn failure(&self) -> Option<&io::Error>
        ensures { is_some result ≡ self.now.has_failed }
    {
        self.failure.as_ref()
    }

    /// Whether the newest call that failed did so because the other end was closed.
    pub(crate) fn is_closed(&self) -> bool
        ensures { result ≡ self.now.is_closed }
    {
        self.is_closed
    }

    /// Notes how a call went.
    fn note<T>(&mut self, came: io::Result<T>, is_flush: bool) -> io::Result<T>
        ensures same { result ≡ came }
        ensures bytes { self.new.bytes ≡ self.old.bytes }
        ensures notes { Notes is_flush self.old self.new result }
    {
        match &came {
            Ok(_) => self.is_flushed = is_flush,
            Err(why) => {
                self.is_closed = why.kind() == ErrorKind::BrokenPipe;
                self.failure = Some(copied(why));
            }
        }
        came
    }
}

/// Returns the same error again, by the system's number if it has one.
fn copied(why: &io::Error) -> io::Error {
    match why.raw_os_error() {
        Some(code) => io::Error::from_raw_os_error(code),
        None => io::Error::from(why.kind()),
    }
}
