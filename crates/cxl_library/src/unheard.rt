//! Where replies go that nobody reads.

use cxl_enc::Failed;
use cxl_io::Sink;

/// A sink that takes all and tells nothing. It takes no memory and never fails.
#[derive(Drop)]
pub(crate) struct Unheard;

impl Sink for Unheard {
    ghost use Rattle.cxl_library.specs.Rooms.{untold};

    ghost state = { λ _. untold };

    fn write(&mut self, bytes: &[u8]) -> Result<usize, Failed> {
        Ok(bytes.len())
    }
}
