//! Driving all else out of the processor's caches.
use std::alloc::{AllocError, Global};

/// The words in 32 MB.
const WORDS: usize = 4_194_304;

/// The words in a cache line.
const LINE: usize = 8;

/// Memory large enough to fill the processor's caches.
#[derive(Drop)]
pub(crate) struct Other {
    words: Vec<u64>,
}

impl Other {
    /// Sets each word to 1, so that each page is there.
    pub(crate) fn new(alloc: Global) -> Result<Other, AllocError> {
        Ok(Other {
            words: vec![in alloc; 1u64; WORDS]?,
        })
    }

    /// Reads a word of each line, and returns their sum.
    #[inline(never)]
    pub(crate) fn walk(&self) -> u64 {
        let mut sum: u64 = 0;
        for word in self.words.iter().step_by(LINE) {
            sum = sum.wrapping_add(*word);
        }
        sum
    }
}
