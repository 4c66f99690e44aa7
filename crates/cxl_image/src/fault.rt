//! Why bytes are no image of a topology's registers.

ghost use Rattle.std.specs.Prelude.{◌≡◌};
ghost use Rattle.cxl_image.specs.declared.fault.ImageFault.TheVariants as faults;

use std::fmt;
use thiserror::Error;

/// Why bytes are no image file of a topology: the first fault from the front. (This project's rule.)
#[derive(Clone, Copy, PartialEq, Eq, Error)]
pub enum ImageFault {
    #[error("the file does not begin with CXLHDM01")]
    Magic,
    /// The number is that of all bytes.
    #[error("the file ends after {0} bytes, before its last field does")]
    Cut(u32),
    /// The number is the one that the file states.
    #[error("the file is for {0} nodes")]
    Nodes(u32),
    /// The number is the node's.
    #[error("the capability word of node {0} is not that of the topology")]
    Caps(u32),
    /// The number is the place of the first byte too many.
    #[error("bytes follow the last block, from byte {0} on")]
    Trailing(u32),
    #[error("out of memory")]
    Memory,
}

// The debug text of a fault is its message, since an error needs one and nothing else asks for it.
impl fmt::Debug for ImageFault {
    fn fmt<W: fmt::Write>(&self, f: &mut fmt::Formatter<W>) -> fmt::Result {
        fmt::Display::fmt(self, f)
    }
}

impl From<cxl_enc::Memory> for ImageFault {
    ghost from_gives = { λ _ fault. fault ≡ faults.Memory };

    fn from(_memory: cxl_enc::Memory) -> ImageFault {
        ImageFault::Memory
    }
}
