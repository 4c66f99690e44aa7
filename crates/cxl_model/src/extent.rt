//! An extent: host bytes in a row that lie on device bytes in a row.

/// Host bytes that follow each other and lie on device bytes that do.
#[derive(Clone, Copy, PartialEq, Eq)]
pub struct Extent {
    /// The first host address.
    pub h: u64,
    /// In bytes.
    pub len: u32,
    /// The slot on whose span they lie.
    pub slot: u32,
    /// The device address of the first byte.
    pub dpa: u64,
}
