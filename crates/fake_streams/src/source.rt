//! A reader that gives a text in pieces.
ghost use Rattle.std.specs.Prelude.{◌≡◌};

use std::io;
use std::io::{ErrorKind, Read};
use std::marker::Model;

/// Gives a text, at most `most` bytes a call, but at least one. Call number `bad`, counted from 1, fails; 0 is no call.
#[derive(Drop)]
pub struct Source<'a> {
    text: &'a [u8],
    most: usize,
    calls: usize,
    bad: usize,
    kind: ErrorKind,
    /// The least room that a call offered, in bytes.
    pub least_room: usize,
}

impl<'a> Model for Source<'a> {
    ghost use Rattle.std.specs.Prelude.{◌≤◌, ℕ, List};
    ghost use Rattle.fake_streams.specs.Streams.{SourceValue};

    ghost Value = { SourceValue };

    ghost view = { λ s. record { left = s.text.now; calls = s.calls; bad = s.bad; kind = s.kind } };

    ghost invariant = { λ s. 1 ≤ s.most };
}

impl<'a> Read for Source<'a> {
    ghost use Rattle.std.specs.Prelude.{Some};
    ghost use Rattle.std.specs.Io.{ReadsAtMost};
    ghost use Rattle.std.specs.Io.KnownBytes.{ReadConsumes};
    ghost use Rattle.fake_streams.specs.Streams.{FailsWhere, one_more};

    ghost remaining = { λ s. Some s.left };

    fn read(&mut self, buf: &mut [u8]) -> io::Result<usize>
        ensures bound { ReadsAtMost result buf.new }
        ensures bytes { ReadConsumes (Some self.old.left) (Some self.new.left) result buf.new }
        ensures calls { self.new.calls ≡ one_more self.old.calls }
        ensures stays { self.new.bad ≡ self.old.bad }
        ensures kind { self.new.kind ≡ self.old.kind }
        ensures fails { FailsWhere self.new.calls self.old.bad self.old.kind result }
    {
        self.least_room = self.least_room.min(buf.len());
        self.calls = self.calls.saturating_add(1);
        if self.calls == self.bad {
            return Err(io::Error::from(self.kind));
        }
        let count = self.text.len().min(buf.len()).min(self.most);
        buf[..count].copy_from_slice(&self.text[..count]);
        self.text = &self.text[count..];
        Ok(count)
    }
}

impl<'a> Source<'a> {
    /// Returns a reader of this text that fails in this way.
    pub fn new(text: &'a [u8], most: usize, bad: usize, kind: ErrorKind) -> Source<'a>
        ensures { result ≡ record { left = text.now; calls = 0; bad = bad; kind = kind } }
    {
        Source {
            text,
            most: most.max(1),
            calls: 0,
            bad,
            kind,
            least_room: usize::MAX,
        }
    }
}
