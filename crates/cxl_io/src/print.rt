//! Numbers in decimal and hexadecimal digits.

ghost use Rattle.std.specs.Prelude.{◌≡◌, ◌+◌, ◌<◌, ◌≤◌, false, ◌++◌, length, take, drop, codes, decimal, Ok, OnOk, OnErr};
ghost use Rattle.std.specs.Fmt.{digit_glyph};
ghost use Rattle.cxl_io.specs.Printed.{hex_of, padded_hex};
ghost use Rattle.cxl_io.specs.Numbers.{number_of};

use cxl_enc::Memory;
use itoa::Buffer;

/// Appends the decimal digits of a number. After `Memory` the text is as before.
pub fn put_number(out: &mut Vec<u8>, n: u64) -> Result<(), Memory>
    ensures ok { OnOk result (out.new.items ≡ out.old.items ++ decimal n) }
    ensures err { OnErr result (out.new.items ≡ out.old.items) }
    // What is printed is read as the same number.
    ensures read_back { number_of (decimal n) ≡ Ok n }
{
    // Most of them have few digits.
    if n < 10 {
        out.push(b'0' + n as u8)?;
        return Ok(());
    }
    if n < 100 {
        return put_digits(out, &two_digits(n));
    }
    if n < 1_000 {
        return put_digits(out, &three_digits(n));
    }
    let mut buffer = Buffer::new();
    put_digits(out, buffer.format(n).as_bytes())
}

fn put_digits(out: &mut Vec<u8>, digits: &[u8]) -> Result<(), Memory>
    ensures ok { OnOk result (out.new.items ≡ out.old.items ++ digits.now) }
    ensures err { OnErr result (out.new.items ≡ out.old.items) }
{
    out.extend_from_slice(digits)?;
    Ok(())
}

fn two_digits(n: u64) -> [u8; 2]
    requires some { 10 ≤ n }
    requires few { n < 100 }
    ensures { result ≡ decimal n }
{
    [b'0' + (n / 10) as u8, b'0' + (n % 10) as u8]
}

fn three_digits(n: u64) -> [u8; 3]
    requires some { 100 ≤ n }
    requires few { n < 1000 }
    ensures { result ≡ decimal n }
{
    let tens = n / 10;
    [
        b'0' + (tens / 10) as u8,
        b'0' + (tens % 10) as u8,
        b'0' + (n % 10) as u8,
    ]
}

/// Appends the lower-case hexadecimal digits of a number, with leading zeros up to `width` digits, and
/// no `0x`. After `Memory` the text is as before.
pub fn put_hex(out: &mut Vec<u8>, n: u64, width: u8) -> Result<(), Memory>
    requires width { (1 ≤ width) × (width ≤ 16) }
    ensures ok { OnOk result (out.new.items ≡ out.old.items ++ padded_hex n width) }
    ensures err { OnErr result (out.new.items ≡ out.old.items) }
    // The width 1 pads nothing.
    ensures plain { padded_hex n 1 ≡ hex_of n }
    // What is printed is read as the same number.
    ensures read_back { number_of (codes "0x" ++ padded_hex n width) ≡ Ok n }
{
    let mut text = [b'0'; 16];
    let start = write_hex(n, &mut text).min(16 - usize::from(width));
    put_digits(out, &text[start..])
}

/// Writes the hexadecimal digits at the end of the text, and answers where they start.
pub fn write_hex(n: u64, text: &mut [u8; 16]) -> usize
    ensures start { result + length (hex_of n) ≡ 16 }
    ensures written { drop result text.new ≡ hex_of n }
    ensures before { take result text.new ≡ take result text.old }
{
    let mut left = n;
    let mut at = 16;
    loop {
        at -= 1;
        text[at] = hex_digit(left % 16);
        left /= 16;
        if left == 0 {
            return at;
        }
    }
}

fn hex_digit(digit: u64) -> u8
    requires { digit < 16 }
    ensures { result ≡ digit_glyph false digit }
{
    if digit < 10 {
        b'0' + digit as u8
    } else {
        b'a' - 10 + digit as u8
    }
}
