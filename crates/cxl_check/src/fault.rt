//! The first breach of an image, and why there are no regions to tell.

ghost use Rattle.std.specs.Prelude.{◌≡◌};
ghost use Rattle.cxl_check.specs.declared.fault.CheckFault.TheVariants as faults;

use cxl_enc::Memory;
use std::alloc::AllocError;
use thiserror::Error;

/// The first breach of an image: the least rule that is broken, 1 to 12 for K1 to K12, the least node that breaks it, and
/// the least decoder there.
#[derive(Clone, Copy, Debug, PartialEq, Eq)]
pub struct Breach {
    pub rule: u8,
    pub node: u32,
    pub decoder: u8,
}

/// Why there are no regions to tell.
#[derive(Clone, Copy, Debug, PartialEq, Eq, Error)]
pub enum CheckFault {
    /// The image is not accepted.
    #[error("{0:?}")]
    Breach(Breach),
    #[error("out of memory")]
    Memory,
}

impl From<Memory> for CheckFault {
    ghost from_gives = { λ _ fault. fault ≡ faults.Memory };

    fn from(_memory: Memory) -> CheckFault {
        CheckFault::Memory
    }
}

impl From<AllocError> for CheckFault {
    ghost from_gives = { λ _ fault. fault ≡ faults.Memory };

    fn from(_memory: AllocError) -> CheckFault {
        CheckFault::Memory
    }
}
