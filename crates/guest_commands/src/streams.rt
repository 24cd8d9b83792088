//! Streams of a guest and of the host.
use cmdcodec::Sid;

/// A stream of the host.
#[derive(Clone, Copy, PartialEq, Eq, Debug)]
pub struct HostStream {
    /// Its StreamID.
    pub sid: Sid,
    /// Whether its endpoint caches translations (PCIe ATS).
    pub ats: bool,
}

/// A stream of a guest that is this one of the host. One that is several streams of the host has an attachment for each.
#[derive(Clone, Copy, PartialEq, Eq, Debug)]
pub struct Attachment {
    /// The guest's stream.
    pub sid: Sid,
    /// What it is on the host.
    pub host: HostStream,
}
