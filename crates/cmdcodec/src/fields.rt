//! The fields of commands. Each type keeps its field in range.
mod page;
mod range;
mod signal;
mod space;
mod stream;

pub use page::{IpaPage, Page, Size};
pub use range::{RangeCount, RangeScale};
pub use signal::{Attr, Cs, Msh, MsiWord};
pub use space::{Asid, Vmid};
pub use stream::{Sid, Ssid, StreamRange};
