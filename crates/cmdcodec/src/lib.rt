//! The commands of the SMMUv3 command queue: words to commands and back, and their texts.
#![tactic(auto)]

mod bits;
mod by_address;
mod closing;
mod command;
mod decoding;
mod display;
mod encoding;
mod fields;
mod ill;
mod kept;
mod laws;
mod layout;
mod legality;
mod limits;
mod opcode;
mod raw;
mod reach;

pub use closing::{cell_address, cell_owner, closing_sync};
pub use command::Command;
pub use decoding::decode;
pub use display::text;
pub use encoding::encode;
pub use fields::{
    Asid, Attr, Cs, IpaPage, Msh, MsiWord, Page, RangeCount, RangeScale, Sid, Size, Ssid,
    StreamRange, Vmid,
};
pub use ill::Ill;
pub use kept::KeptRaw;
pub use laws::{free_bits_are_ignored, legal_words_spell_one_command, runs_are_of_whole_granules};
pub use legality::first_ill;
pub use limits::{MOST_BATCH_COMMANDS, MOST_BATCHES, MOST_BODY_COMMANDS};
pub use opcode::Opcode;
pub use raw::{Raw, RawList, from_bytes, to_bytes};
pub use reach::{Granule, PageRun, Reach};
