//! Why no session opens on a host.

use cxl_check::Breach;
use thiserror::Error;

/// Why no session opens.
#[derive(Clone, Copy, Debug, PartialEq, Eq, Error)]
pub enum OpenFault {
    /// The image is not accepted.
    #[error("{0:?}")]
    Breach(Breach),
    /// The image has so many regions, more than 256.
    #[error("{0} regions")]
    Full(u32),
    #[error("the bus failed")]
    Bus,
    #[error("out of memory")]
    Memory,
}
