//! A byte that no line may have.
use std::fmt;

/// The kind of a byte that no line may have: one outside of the printable ASCII characters.
#[derive(Clone, Copy)]
enum StrayKind {
    ByteOrderMark,
    Tab,
    CarriageReturn,
    Other(u8),
}

/// The first byte of a line that no line may have.
#[derive(Clone, Copy)]
pub(crate) struct Stray {
    /// Which byte of the line, counted from 1.
    place: usize,
    kind: StrayKind,
}

impl Stray {
    /// Returns the first such byte of a line, if it has one.
    pub(crate) fn first_of(line: &[u8]) -> Option<Stray> {
        let Some(at) = line.iter().position(|byte| *byte < 0x20 || 0x7e < *byte) else {
            return None;
        };
        let kind = match line[at] {
            b'\t' => StrayKind::Tab,
            b'\r' => StrayKind::CarriageReturn,
            _ if line.starts_with(b"\xef\xbb\xbf") => StrayKind::ByteOrderMark,
            other => StrayKind::Other(other),
        };
        Some(Stray {
            place: at.saturating_add(1),
            kind,
        })
    }
}

impl fmt::Display for Stray {
    fn fmt<W: fmt::Write>(&self, f: &mut fmt::Formatter<W>) -> fmt::Result {
        write!(f, "byte {}: ", self.place)?;
        match self.kind {
            StrayKind::ByteOrderMark => f.write_str("a byte order mark, which no script has"),
            StrayKind::Tab => f.write_str("a tab, where spaces part words"),
            StrayKind::CarriageReturn => {
                f.write_str("a carriage return, where a line feed alone ends a line")
            }
            StrayKind::Other(byte) => write!(
                f,
                "0x{byte:02x}, which is no printable ASCII character"
            ),
        }
    }
}
