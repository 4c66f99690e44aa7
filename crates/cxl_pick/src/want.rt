//! What is wanted of a pick.

use cxl_enc::MemKind;

/// What is wanted of a pick: a region of so many ways, whatever its endpoints.
#[derive(Clone, Copy, PartialEq, Eq)]
pub struct Want {
    pub kind: MemKind,
    /// In bytes.
    pub size: u64,
    /// The granularity code, where one is stated.
    pub gran: Option<u8>,
    pub ways: u8,
}
