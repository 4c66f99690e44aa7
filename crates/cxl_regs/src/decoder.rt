//! The registers of one HDM decoder.

/// One HDM decoder's registers.
#[derive(Clone, Copy, PartialEq, Eq)]
pub struct Decoder {
    /// The first host physical address, a multiple of 256 MiB.
    pub base: u64,
    /// How many bytes, a multiple of 256 MiB.
    pub size: u64,
    /// The interleave ways code, the four-bit field as it stands.
    pub ways: u8,
    /// The interleave granularity code, the four-bit field as it stands.
    pub gran: u8,
    /// Lock on commit.
    pub lock: bool,
    pub commit: bool,
    pub committed: bool,
    /// The last commit failed.
    pub error: bool,
    pub host_only: bool,
    /// A port's target list, entry i in byte i, the lowest first; an endpoint's device address skip, a
    /// multiple of 256 MiB.
    pub tail: u64,
}

impl Decoder {
    /// A decoder after reset.
    pub const RESET: Decoder = Decoder {
        base: 0,
        size: 0,
        ways: 0,
        gran: 0,
        lock: false,
        commit: false,
        committed: false,
        error: false,
        host_only: false,
        tail: 0,
    };
}
