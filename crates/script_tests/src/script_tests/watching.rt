//! How much is written at each read.
use crate::script_tests::lengths::serve_lengths;
use std::cell::Cell;
use std::io;
use std::io::{Read, Write};

// Gives two bytes a call, and notes how much its partner held at each call.
#[derive(Drop)]
struct Watcher<'a> {
    text: &'a [u8],
    written: &'a Cell<usize>,
    seen: [usize; 6],
    calls: usize,
}

impl<'a> Read for Watcher<'a> {
    fn read(&mut self, buf: &mut [u8]) -> io::Result<usize> {
        if self.calls < self.seen.len() {
            self.seen[self.calls] = self.written.get();
            self.calls += 1;
        }
        let count = self.text.len().min(buf.len()).min(2);
        buf[..count].copy_from_slice(&self.text[..count]);
        self.text = &self.text[count..];
        Ok(count)
    }
}

// Takes all that it is given, and notes how much that was.
#[derive(Drop)]
struct Watched<'a> {
    written: &'a Cell<usize>,
}

impl<'a> Write for Watched<'a> {
    fn write(&mut self, buf: &[u8]) -> io::Result<usize> {
        self.written
            .set(self.written.get().saturating_add(buf.len()));
        Ok(buf.len())
    }

    fn flush(&mut self) -> io::Result<()> {
        Ok(())
    }
}

#[test]
fn no_answer_waits_for_a_later_read(rt: HostRuntime) {
    let written = Cell::new(0);
    let mut input = Watcher {
        text: b"a\nbb\nccc\n".as_slice(),
        written: &written,
        seen: [0; 6],
        calls: 0,
    };
    let mut output = Watched { written: &written };
    let ended = serve_lengths(rt.alloc(), &mut input, &mut output);
    // Each answer has five bytes. The 1st call reads the first line, the 3rd the second, and the 5th the third.
    assert_eq!(rt; (ended.is_ok(), input.seen), (true, [0, 5, 5, 10, 10, 15]));
}
