//! The words of texts that several replies share: addresses and granularities.

ghost use Rattle.std.specs.Prelude.{◌≡◌, ◌≤◌, ◌++◌, length, OnOk, OnErr};
ghost use Rattle.cxl_reply.specs.Words.{hex_text, gran_text, kind_text};

use cxl_enc::{MemKind, Memory, gran_of};
use cxl_io::{put_number, write_hex};

/// Appends an address or a size in hexadecimal digits, behind `0x`. After `Memory` the text is as before.
/// (This project's rule.) Takes memory.
pub fn put_address(out: &mut Vec<u8>, address: u64) -> Result<(), Memory>
    ensures ok { OnOk result (out.new.items ≡ out.old.items ++ hex_text address) }
    ensures err { OnErr result (out.new.items ≡ out.old.items) }
{
    let mut digits = [b'0'; 16];
    let start = write_hex(address, &mut digits);
    out.reserve(18)?;
    out.extend_from_slice(b"0x")?;
    out.extend_from_slice(&digits[start..])?;
    Ok(())
}

/// Appends the bytes of a granularity code, in decimal digits. After `Memory` the text is as before. (This
/// project's rule.) Takes memory.
pub fn put_gran(out: &mut Vec<u8>, code: u8) -> Result<(), Memory>
    requires { code ≤ 6 }
    ensures ok { OnOk result (out.new.items ≡ out.old.items ++ gran_text code) }
    ensures err { OnErr result (out.new.items ≡ out.old.items) }
{
    put_number(out, u64::from(gran_of(code).unwrap()))
}

pub(crate) fn kind_text(kind: MemKind) -> &'static [u8]
    ensures text { result.now ≡ kind_text kind }
    ensures few { length result.now ≤ 4 }
{
    match kind {
        MemKind::Ram => b"ram",
        MemKind::Pmem => b"pmem",
    }
}
