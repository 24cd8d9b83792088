//! Parts that several commands' texts share.
ghost use Rattle.std.specs.Prelude.{◌≡◌, ◌++◌, Some, codes, decimal};
ghost use Rattle.cmdcodec.specs.Fields.{bit};
ghost use Rattle.cmdcodec.specs.Opcodes.{opcode_of};
ghost use Rattle.cmdcodec.specs.Text.{kept_name, kept_text, reach_text, pages_text};

use crate::by_address::ByAddress;
use crate::fields::{Attr, Cs, Msh};
use crate::kept::KeptRaw;
use crate::opcode::Opcode;
use crate::raw::Raw;
use crate::reach::Reach;
use std::fmt;

#[tactic(auto, unfolding(crate::specs::Opcodes::opcode_named))]
fn kept_name(raw: Raw) -> &'static str
    ensures { result.now ≡ kept_name (opcode_of raw) }
{
    match raw.opcode() {
        Some(Opcode::PrefetchConfig) => "PREFETCH_CONFIG",
        Some(Opcode::PrefetchAddr) => "PREFETCH_ADDR",
        Some(Opcode::PriResp) => "PRI_RESP",
        Some(Opcode::Resume) => "RESUME",
        _ => "STALL_TERM",
    }
}

impl fmt::Display for KeptRaw {
    ghost output = { λ kept. Some (kept_text kept) };

    fn fmt<W: fmt::Write>(&self, f: &mut fmt::Formatter<W>) -> fmt::Result {
        let raw = self.get();
        let (name, lo, hi) = (kept_name(raw), raw.lo, raw.hi);
        write!(f, "{name} lo=0x{lo:x} hi=0x{hi:x}")
    }
}

impl fmt::Display for Reach {
    ghost output = { λ reach. Some (reach_text reach) };

    fn fmt<W: fmt::Write>(&self, f: &mut fmt::Formatter<W>) -> fmt::Result {
        match *self {
            Reach::Page => Ok(()),
            Reach::Range { tg, num, scale } => {
                let (tg, num, scale) = (tg.get(), num.get(), scale.get());
                write!(f, " tg={tg} num={num} scale={scale}")
            }
        }
    }
}

impl fmt::Display for ByAddress {
    ghost output = { λ pages. Some (pages_text pages) };

    fn fmt<W: fmt::Write>(&self, f: &mut fmt::Formatter<W>) -> fmt::Result {
        let (leaf, address, reach) = (leaf_text(self.leaf), self.page.get() * 4096, self.reach);
        write!(f, "{leaf} addr=0x{address:x}{reach}")
    }
}

/// The text of a Leaf bit, in one piece: a number by itself takes longer than the whole.
pub(super) fn leaf_text(leaf: bool) -> &'static str
    ensures { result.now ≡ codes " leaf=" ++ decimal (bit leaf) }
{
    if leaf { " leaf=1" } else { " leaf=0" }
}

/// The beginning of the text of the CMD_SYNC that ends a batch of ours, in one piece.
fn own_sync_text() -> &'static str
    ensures { result.now ≡ codes "CMD_SYNC cs=" ++ decimal 1 ++ codes " msh=" ++ decimal 0 ++ codes " attr=" ++ decimal 0 }
{
    "CMD_SYNC cs=1 msh=0 attr=0"
}

/// The fields of a CMD_SYNC that say how it tells of its completion.
#[derive(Clone, Copy)]
pub(super) struct Signal {
    pub(super) cs: Cs,
    pub(super) msh: Msh,
    pub(super) attr: Attr,
}

impl fmt::Display for Signal {
    ghost output = { λ signal. Some (codes "CMD_SYNC cs=" ++ decimal signal.cs ++ codes " msh=" ++ decimal signal.msh ++ codes " attr=" ++ decimal signal.attr) };

    fn fmt<W: fmt::Write>(&self, f: &mut fmt::Formatter<W>) -> fmt::Result {
        match (self.cs.get(), self.msh.get(), self.attr.get()) {
            (1, 0, 0) => f.write_str(own_sync_text()),
            (cs, msh, attr) => write!(f, "CMD_SYNC cs={cs} msh={msh} attr={attr}"),
        }
    }
}
