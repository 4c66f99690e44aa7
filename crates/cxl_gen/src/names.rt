//! Names of generated nodes and regions.

ghost use Rattle.std.specs.Prelude.{◌≡◌, ◌<◌, ◌++◌, decimal, IfOk};
ghost use Rattle.cxl_gen.specs.Made.{IsFront};

use cxl_enc::{Memory, Name};
use itoa::Buffer;
use std::alloc::Global;

/// The name of these bytes and a number in decimal digits.
pub(crate) fn made_name(alloc: Global, front: &[u8], i: u32) -> Result<Name, Memory>
    requires front { IsFront front.now }
    requires few { i < 1000 }
    ensures { IfOk result (λ name. name ≡ front.now ++ decimal i) }
{
    let mut buffer = Buffer::new();
    let mut bytes = Vec::from_slice(alloc, front)?;
    bytes.extend_from_slice(buffer.format(i).as_bytes())?;
    match Name::read(&bytes) {
        Some(name) => Ok(name),
        None => unreachable!(),
    }
}
