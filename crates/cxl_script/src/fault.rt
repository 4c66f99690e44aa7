//! Why a line of a script asks for nothing.

use std::alloc::{AllocError, AllocFailed};

/// Why a line asks for nothing.
#[derive(Clone, Copy, PartialEq, Eq)]
pub enum Why {
    /// The first word is no verb, or that after `begin` is neither `create` nor `destroy`.
    Verb,
    /// A word is needed, and none is left.
    Missing,
    /// A word is left over.
    Extra,
    /// A name is none.
    Name,
    /// The kind is neither `ram` nor `pmem`.
    Kind,
    /// A number is none.
    Number,
    /// A number, a granularity or a count of bytes is out of its range.
    Range,
    /// A byte is no hexadecimal digit, or there is an odd number of them.
    Hex,
    /// The line has more than 4,096 bytes.
    Long,
}

/// The first fault of a line.
#[derive(Clone, Copy, PartialEq, Eq)]
pub struct BadLine {
    /// The byte place at which the word begins: the line's length where a word is missing, 4,096 where the
    /// line is too long.
    pub at: u32,
    pub why: Why,
}

/// Why a line gave no command.
#[derive(Clone, Copy, PartialEq, Eq)]
pub enum LineFault {
    Bad(BadLine),
    Memory,
}

impl<T: Drop> From<AllocFailed<T>> for LineFault {
    ghost use Rattle.std.specs.Prelude.{◌≡◌};
    ghost use Rattle.cxl_script.specs.declared.fault.LineFault.TheVariants.{Memory};

    ghost from_gives = { λ _ fault. fault ≡ Memory };

    fn from(_failed: AllocFailed<T>) -> LineFault {
        LineFault::Memory
    }
}

impl From<AllocError> for LineFault {
    ghost use Rattle.std.specs.Prelude.{◌≡◌};
    ghost use Rattle.cxl_script.specs.declared.fault.LineFault.TheVariants.{Memory};

    ghost from_gives = { λ _ fault. fault ≡ Memory };

    fn from(_failed: AllocError) -> LineFault {
        LineFault::Memory
    }
}

impl From<BadLine> for LineFault {
    ghost use Rattle.std.specs.Prelude.{◌≡◌};
    ghost use Rattle.cxl_script.specs.declared.fault.LineFault.TheVariants.{Bad};

    ghost from_gives = { λ bad fault. fault ≡ Bad bad };

    fn from(bad: BadLine) -> LineFault {
        LineFault::Bad(bad)
    }
}
