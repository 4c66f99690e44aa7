//! Why bytes are no table.

ghost use Rattle.std.specs.Prelude.{◌≡◌};
ghost use Rattle.cxl_cedt.specs.declared.fault.CedtFault.TheVariants as faults;

use std::fmt;
use thiserror::Error;

/// Why bytes are no CEDT: the first fault from the front. A number is the byte place at which the record
/// begins. The order is this project's rule.
#[derive(Clone, Copy, PartialEq, Eq, Error)]
pub enum CedtFault {
    #[error("the table is shorter than its header")]
    Short,
    #[error("the signature is not CEDT")]
    Signature,
    #[error("the length field is not the number of bytes")]
    Length,
    #[error("the bytes do not sum to 0 modulo 256")]
    Checksum,
    #[error("the record at byte {0} passes the end of the table")]
    RecordCut(u32),
    #[error("the record at byte {0} has a wrong length")]
    RecordLength(u32),
    #[error("the window at byte {0} has an unknown ways code")]
    WaysCode(u32),
    #[error("the record at byte {0} has an unknown granularity code")]
    GranCode(u32),
    #[error("the window at byte {0} has an unknown arithmetic")]
    Arithmetic(u32),
    #[error("the record at byte {0} is the 65th of its type")]
    TooMany(u32),
    #[error("out of memory")]
    Memory,
}

// The debug text of a fault is its message, since an error needs one and nothing else asks for it.
impl fmt::Debug for CedtFault {
    fn fmt<W: fmt::Write>(&self, f: &mut fmt::Formatter<W>) -> fmt::Result {
        write!(f, "{self}")
    }
}

impl From<cxl_enc::Memory> for CedtFault {
    ghost from_gives = { λ _ fault. fault ≡ faults.Memory };

    fn from(_memory: cxl_enc::Memory) -> CedtFault {
        CedtFault::Memory
    }
}
