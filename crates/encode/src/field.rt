//! The fields of commands, as texts have them.
ghost use Rattle.std.specs.Prelude.{◌≡◌, ◌<◌};
ghost use Rattle.encode.specs.Fields.{key_of, least_of, most_of, unit_of};

/// A field of a command, given by a word `key=number`. Its value is a number of units: an address is told in bytes.
#[derive(Clone, Copy, Debug, PartialEq, Eq)]
pub enum Field {
    /// `sid=`, StreamID: 32 bits.
    Sid,
    /// `ssid=`, SubstreamID: 20 bits.
    Ssid,
    /// `range=`, Range of CFGI_STE_RANGE: 5 bits.
    Range,
    /// `leaf=`, Leaf: 1 bit.
    Leaf,
    /// `vmid=`, VMID: 16 bits.
    Vmid,
    /// `asid=`, ASID: 16 bits.
    Asid,
    /// `addr=`, Address: a page of 4,096 bytes.
    Page,
    /// `addr=` of TLBI_S2_IPA: a page of 4,096 bytes, below 2^52 bytes.
    IpaPage,
    /// `tg=`, TG of a range: 1 to 3.
    Tg,
    /// `num=`, NUM of a range: 5 bits.
    Num,
    /// `scale=`, SCALE of a range: 5 bits.
    Scale,
    /// `ssv=`, SSV: 1 bit.
    Ssv,
    /// `global=`, Global: 1 bit.
    Global,
    /// `size=`, Size of ATC_INV: 0 to 52.
    Size,
    /// `cs=`, CS of CMD_SYNC: 0 to 2.
    Cs,
    /// `msh=`, MSH: 2 bits.
    Msh,
    /// `attr=`, MSIATTR: 4 bits.
    Attr,
    /// `data=`, MSIDATA: 32 bits.
    Data,
    /// `addr=` of CMD_SYNC, MSIADDR: a word of 4 bytes, below 2^52 bytes.
    MsiWord,
    /// `lo=`, the low word of a command that is kept: 64 bits.
    Lo,
    /// `hi=`, its high word: 64 bits.
    Hi,
}

impl Field {
    /// Returns the beginning of the word that gives it.
    pub(crate) fn key(self) -> &'static str
        ensures { result.now ≡ key_of self }
    {
        match self {
            Field::Sid => "sid=",
            Field::Ssid => "ssid=",
            Field::Range => "range=",
            Field::Leaf => "leaf=",
            Field::Vmid => "vmid=",
            Field::Asid => "asid=",
            Field::Page | Field::IpaPage | Field::MsiWord => "addr=",
            Field::Tg => "tg=",
            Field::Num => "num=",
            Field::Scale => "scale=",
            Field::Ssv => "ssv=",
            Field::Global => "global=",
            Field::Size => "size=",
            Field::Cs => "cs=",
            Field::Msh => "msh=",
            Field::Attr => "attr=",
            Field::Data => "data=",
            Field::Lo => "lo=",
            Field::Hi => "hi=",
        }
    }

    /// The unit that its number is a multiple of.
    pub(crate) fn unit(self) -> u64
        ensures value { result ≡ unit_of self }
        ensures some { 0 < result }
    {
        match self {
            Field::Page | Field::IpaPage => 4096,
            Field::MsiWord => 4,
            _ => 1,
        }
    }

    /// Its least value.
    pub(crate) fn least(self) -> u64
        ensures { result ≡ least_of self }
    {
        match self {
            Field::Tg => 1,
            _ => 0,
        }
    }

    /// Its greatest value.
    pub(crate) fn most(self) -> u64
        ensures { result ≡ most_of self }
    {
        match self {
            Field::Sid | Field::Data => 0xffff_ffff,
            Field::Ssid => 0xf_ffff,
            Field::Range | Field::Num | Field::Scale => 31,
            Field::Leaf | Field::Ssv | Field::Global => 1,
            Field::Vmid | Field::Asid => 0xffff,
            Field::Page => 0xf_ffff_ffff_ffff,
            Field::IpaPage => 0xff_ffff_ffff,
            Field::Tg | Field::Msh => 3,
            Field::Size => 52,
            Field::Cs => 2,
            Field::Attr => 15,
            Field::MsiWord => 0x3_ffff_ffff_ffff,
            Field::Lo | Field::Hi => u64::MAX,
        }
    }

    /// Its name, which comes before `=`.
    pub(crate) fn name(self) -> &'static str {
        self.key().trim_end_matches('=')
    }

    /// The least number that a word may give it.
    pub(crate) fn least_number(self) -> u64 {
        self.least().saturating_mul(self.unit())
    }

    /// The greatest number that a word may give it.
    pub(crate) fn most_number(self) -> u64 {
        self.most().saturating_mul(self.unit())
    }
}
