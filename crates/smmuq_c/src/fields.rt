//! A command's fields, flat, as C sees them.
ghost use Rattle.std.specs.Prelude.{◌≡◌};

mod of_command;
mod to_command;

pub(crate) use to_command::{command_of, flag};

/// The fields of a command, 0 for those it doesn't have.
#[repr(C)]
#[derive(Clone, Copy)]
pub struct Fields {
    pub opcode: u32,
    pub sid: u32,
    pub ssid: u32,
    pub vmid: u32,
    pub asid: u32,
    pub leaf: u32,
    /// 0 for the one page, 1 to 3 for a range.
    pub tg: u32,
    pub num: u32,
    pub scale: u32,
    /// 0 for any level, 1 to 3 for that of the leaves.
    pub ttl: u32,
    pub ssv: u32,
    pub global: u32,
    /// `Size` of an ATC_INV, `Range` of a CFGI_STE_RANGE.
    pub size: u32,
    pub cs: u32,
    pub msh: u32,
    pub attr: u32,
    pub data: u32,
    /// So that no byte of it is padding.
    pub unused: u32,
    /// The address in bytes: of the first page, or MSIADDR.
    pub address: u64,
    /// The words of a command that is kept as it is.
    pub lo: u64,
    pub hi: u64,
}

impl Fields {
    /// Reads each field once, so that what is judged is what is used. It isn't inlined, so that no read of the copy is
    /// made a second read of the caller's fields.
    #[inline(never)]
    pub(crate) fn read(fields: &Fields) -> Fields
        ensures { result ≡ fields.now }
    {
        *fields
    }
}
