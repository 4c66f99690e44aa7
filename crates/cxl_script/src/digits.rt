//! Hexadecimal digits, and the bytes that they write. No loop looks at one byte to know whether it goes on to the next,
//! so that a processor works on many of them at once.

ghost use Rattle.std.specs.Prelude.{◌≡◌, ◌+◌, ◌*◌, ◌<◌, ◌&&◌, nat_le, true, length, IfOk};
ghost use Rattle.std.specs.List.{list_all};
ghost use Rattle.std.specs.Char.{digit_value, is_digit};
ghost use Rattle.cxl_script.specs.Reading.{is_hex, hex_bytes};

use std::alloc::{AllocError, Global};

/// Whether a text is hexadecimal digits of either case, two for each byte.
pub(crate) fn is_hex(text: &[u8]) -> bool
    ensures { result ≡ is_hex text.now }
{
    are_digits(text) && text.len() % 2 == 0
}

fn are_digits(text: &[u8]) -> bool
    ensures { result ≡ list_all (λ b. is_digit b 16) text.now }
{
    let mut all = true;
    for byte in text {
        all &= is_hex_digit(*byte);
    }
    all
}

fn is_hex_digit(byte: u8) -> bool
    ensures { result ≡ is_digit byte 16 }
{
    is_from_to(byte, b'0', b'9') | is_from_to(byte, b'a', b'f') | is_from_to(byte, b'A', b'F')
}

fn is_from_to(byte: u8, first: u8, last: u8) -> bool
    ensures { result ≡ (nat_le first byte && nat_le byte last) }
{
    (first <= byte) & (byte <= last)
}

/// The bytes that digits write, two digits each.
pub(crate) fn hex_bytes(alloc: Global, digits: &[u8]) -> Result<Vec<u8>, AllocError>
    requires { is_hex digits.now ≡ true }
    ensures { IfOk result (λ bytes. bytes.items ≡ hex_bytes digits.now) }
{
    let mut bytes = vec![in alloc; 0; digits.len() / 2]?;
    write_bytes(digits, &mut bytes);
    Ok(bytes)
}

fn write_bytes(digits: &[u8], bytes: &mut [u8])
    requires len { length digits.now ≡ 2 * length bytes.old }
    requires digits { list_all (λ b. is_digit b 16) digits.now ≡ true }
    ensures { bytes.new ≡ hex_bytes digits.now }
{
    for i in 0..bytes.len() {
        bytes[i] = pair_value(digits[2 * i], digits[2 * i + 1]);
    }
}

fn pair_value(high: u8, low: u8) -> u8
    requires high { is_digit high 16 ≡ true }
    requires low { is_digit low 16 ≡ true }
    ensures { result ≡ 16 * digit_value high + digit_value low }
{
    16 * digit_value(high) + digit_value(low)
}

/// Of a letter's code the lower four bits count from one.
fn digit_value(digit: u8) -> u8
    requires { is_digit digit 16 ≡ true }
    ensures value { result ≡ digit_value digit }
    ensures below { result < 16 }
{
    digit % 16 + 9 * (digit / 64)
}
