//! The spans of the blocks in the caches.
ghost use Rattle.std.specs.Prelude.{◌≡◌, ◌<◌, ◌≤◌, ◌==◌, ◌/◌, ◌%◌, ◌^◌, ℕ, bit_and};

/// The spans of all blocks ever put in, which include those of the entries held: bit n for blocks of `2^n` pages.
#[derive(Clone, Copy)]
pub(crate) struct Spans {
    used: u64,
    ghost few: { used < 2 ^ 53 },
}

impl Spans {
    ghost use Rattle.caches.specs.Spanned.{IsSpanOf};

    /// No spans, for caches that never had a block.
    pub(crate) fn none() -> Spans {
        Spans { used: 0 }
    }

    /// Returns a number above all of them, at most 53.
    pub(crate) fn end(&self) -> u8
        ensures above { (n : ℕ) → IsSpanOf self.now n → n < result }
        ensures few { result ≤ 53 }
    {
        (64 - self.used.leading_zeros()) as u8
    }

    /// Whether a block of this span was put in.
    pub(crate) fn has(&self, span: u8) -> bool
        requires { span < 53 }
        ensures { result ≡ (self.now.used / 2 ^ span % 2 == 1) }
    {
        (self.used >> span) % 2 == 1
    }

    /// Returns those of a mask of spans that are among them.
    pub(crate) fn among(&self, spans: u64) -> u64
        ensures value { result ≡ bit_and spans self.now.used }
        ensures few { result < 2 ^ 53 }
    {
        spans & self.used
    }

    /// Adds the span of a block that is put in.
    pub(crate) fn add(&mut self, span: u8)
        requires { span ≤ 52 }
        ensures added { IsSpanOf self.new span }
        ensures kept { (n : ℕ) → IsSpanOf self.old n → IsSpanOf self.new n }
    {
        self.used |= 1 << span;
    }
}
