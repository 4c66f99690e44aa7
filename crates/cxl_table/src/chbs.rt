//! The record of a host bridge (CHBS).

/// A CXL host bridge structure.
#[derive(Clone, Copy, PartialEq, Eq)]
pub struct Chbs {
    /// The bridge's unique number, which windows name as a target.
    pub uid: u32,
    /// 0 is CXL 1.1, 1 is CXL 2.0.
    pub version: u32,
    /// The host address of its registers.
    pub base: u64,
    /// The length of its registers, in bytes.
    pub length: u64,
}
