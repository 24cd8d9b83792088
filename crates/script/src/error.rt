use std::alloc::AllocError;
use std::io;
use thiserror::Error;

/// Why a run stopped before its outcome was written.
#[derive(Debug, Drop, Error)]
pub enum ServeError {
    /// Memory ran out. The answers to the lines before were written, then the line `no memory`.
    #[error("out of memory")]
    Memory(AllocError),
    /// The reader failed.
    #[error("reading the script: {0}")]
    Read(io::Error),
    /// The writer failed, or took nothing.
    #[error("writing the answer: {0}")]
    Write(io::Error),
    /// The script has 2^64 lines, or took as many reads: at least 2^63 bytes of it were read.
    #[error("gave up after 2^64 lines or reads")]
    Endless,
}
