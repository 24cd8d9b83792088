//! What a driver changed, flat, as C says it.
ghost use Rattle.std.specs.Prelude.{◌≡◌};

/// What a driver changed, and how it has its commands made. Fields that it doesn't have are ignored.
#[repr(C)]
#[derive(Clone, Copy)]
pub struct Change {
    /// 3 for stage 1, 4 for stage 2, 5 for the hypervisor; 8 for what an endpoint caches. As in `RegionWords`.
    pub kind: u32,
    pub sid: u32,
    /// Which accesses of an endpoint: 0 for all, 1 for those of any substream, 2 for those of `ssid`.
    pub substreams: u32,
    pub ssid: u32,
    pub vmid: u32,
    /// Which address spaces: 0 for all, 2 for `asid`; 1 for `asid` where some page may be global (nG 0).
    pub asids: u32,
    pub asid: u32,
    /// The granule of the translation tables: 1 for 4 KiB, 2 for 16 KiB, 3 for 64 KiB.
    pub tg: u32,
    /// 1 where only last-level entries changed, 0 where tables did.
    pub leaf: u32,
    /// The level of these entries, 1 to 3, or 0 if it isn't known.
    pub ttl: u32,
    /// 1 for all bytes, 0 for `length` bytes from `first` on.
    pub everything: u32,
    /// The most commands by address. Where more are needed, the whole space is invalidated.
    pub most_commands: u32,
    pub first: u64,
    pub length: u64,
}

impl Change {
    /// Reads each field once, so that what is judged is what is used. It isn't inlined, so that no read of the copy is
    /// made a second read of the caller's fields.
    #[inline(never)]
    pub(crate) fn read(change: &Change) -> Change
        ensures { result ≡ change.now }
    {
        *change
    }
}
