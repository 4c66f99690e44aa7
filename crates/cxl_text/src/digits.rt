//! Bytes as hexadecimal digits.

ghost use Rattle.std.specs.Prelude.{◌≡◌, ◌*◌, ◌<◌, ◌++◌, length, slice_index, OnOk};
ghost use Rattle.hex.specs.Hex.{lower_digits};
ghost use Rattle.cxl_reply.specs.Words.{bytes_text};

use cxl_enc::Memory;

/// Appends two digits for each byte.
pub(crate) fn put_bytes(out: &mut Vec<u8>, bytes: &[u8]) -> Result<(), Memory>
    ensures { OnOk result (out.new.items ≡ out.old.items ++ bytes_text bytes.now) }
{
    let start = out.len();
    let end = start.checked_add(2 * bytes.len()).ok_or(Memory)?;
    out.resize(end, 0)?;
    write_digits(bytes, &mut out[start..]);
    Ok(())
}

/// Does the same for each byte, whatever it is, so that a processor works on many of them at once.
fn write_digits(bytes: &[u8], digits: &mut [u8])
    requires { length digits.old ≡ 2 * length bytes.now }
    ensures { digits.new ≡ bytes_text bytes.now }
{
    for i in 0..bytes.len() {
        digits[2 * i] = lower_digit(bytes[i] / 16);
        digits[2 * i + 1] = lower_digit(bytes[i] % 16);
    }
}

#[tactic(auto, using(crate::proofs::DigitGlyphs::glyph))]
fn lower_digit(value: u8) -> u8
    requires { value < 16 }
    ensures { result ≡ slice_index lower_digits value }
{
    if value < 10 {
        b'0' + value
    } else {
        b'a' - 10 + value
    }
}
