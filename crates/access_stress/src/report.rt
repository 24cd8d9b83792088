//! What a model's turns came to.

/// How many accesses ended, how many of them used a page that was free by then, how many walks there were, how many runs
/// found a CMD_SYNC that waits, and how many tokens weren't of an outstanding transaction.
#[derive(Clone, Copy, Debug, PartialEq, Eq)]
pub(crate) struct Report {
    pub(crate) accesses: u64,
    pub(crate) of_free_pages: u64,
    pub(crate) walks: u64,
    pub(crate) waiting: u64,
    pub(crate) unknown: u64,
}

impl Report {
    pub(crate) const NONE: Report = Report {
        accesses: 0,
        of_free_pages: 0,
        walks: 0,
        waiting: 0,
        unknown: 0,
    };
}
