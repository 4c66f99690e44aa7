//! Why bytes are no poison list.

ghost use Rattle.std.specs.Prelude.{◌≡◌};
ghost use Rattle.cxl_poison.specs.declared.fault.PoisonFault.TheVariants as faults;

use thiserror::Error;

/// How many records a poison list says it has, and for how many whole ones it has room.
#[derive(Clone, Copy, Debug, PartialEq, Eq)]
pub struct Said {
    pub said: u32,
    pub room: u32,
}

/// Why bytes are no poison list. (This project's rule.)
#[derive(Clone, Copy, Debug, PartialEq, Eq, Error)]
pub enum PoisonFault {
    #[error("a poison list has at least 32 bytes")]
    Short,
    #[error("the poison list has fewer records than it says")]
    Count(Said),
    #[error("out of memory")]
    Memory,
}

impl From<cxl_model::Memory> for PoisonFault {
    ghost from_gives = { λ _ fault. fault ≡ faults.Memory };

    fn from(_memory: cxl_model::Memory) -> PoisonFault {
        PoisonFault::Memory
    }
}
