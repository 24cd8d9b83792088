//! What a line of a dump says.
use cmdcodec::Raw;

/// A line with the 16 bytes of a slot.
#[derive(Clone, Copy, Debug, PartialEq, Eq)]
pub struct DumpLine {
    /// Where the first of them lay, as the line says it: a virtual or physical address, or the offset in a file.
    pub address: u64,
    /// The words that they are as a command: lo in the first eight, hi in the others, each with its lowest byte first.
    pub raw: Raw,
}

/// What a line of a dump says.
#[derive(Clone, Copy, Debug, PartialEq, Eq)]
pub enum Dumped {
    /// A blank line, or an address alone, as `hexdump -C` and `od` end with it.
    Nothing,
    /// The 16 bytes of a slot.
    Slot(DumpLine),
    /// No line of such a dump.
    Bad,
}
