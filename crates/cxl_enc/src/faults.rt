//! How a call says that it failed: for want of memory, or because the outside did.

use std::alloc::{AllocError, AllocFailed};

/// There was no memory left. The one answer that no contract ties to a cause.
#[derive(Clone, Copy, Debug, PartialEq, Eq)]
pub struct Memory;

/// The outside failed: a file, the script, the sink or the registers. A trait's count of faults rose in
/// that call.
#[derive(Clone, Copy, Debug, PartialEq, Eq)]
pub struct Failed;

impl From<AllocError> for Memory {
    fn from(_e: AllocError) -> Memory {
        Memory
    }
}

impl<T: Drop> From<AllocFailed<T>> for Memory {
    fn from(_e: AllocFailed<T>) -> Memory {
        Memory
    }
}
