//! Why no endpoints are picked.

use thiserror::Error;

/// Why no endpoints are picked, in the order in which it is tried.
#[derive(Clone, Copy, Debug, PartialEq, Eq, Error)]
pub enum PickFault {
    /// A region cannot have so many ways.
    #[error("a region cannot have {0} ways")]
    Ways(u32),
    /// The size is 0, no multiple of 256 MiB for each way, or above 2^52.
    #[error("no region has this size")]
    Size,
    /// No set of so many endpoints has a legal plan.
    #[error("no set of so many endpoints has a legal plan")]
    NoSet,
    #[error("out of memory")]
    Memory,
}
