//! The number that a word stands for.

ghost use Rattle.std.specs.Prelude.{◌≡◌, ◌^◌, ◌<◌, ◌≤◌, None, length, drop, SomeIff};
ghost use Rattle.std.specs.Char.{digit_value, is_digit};
ghost use Rattle.std.specs.Str.Parse.{digits_value};
ghost use Rattle.cxl_io.specs.Numbers.{first_bad_place, number_in, number_of};

use thiserror::Error;

/// Why a word is no number.
#[derive(Clone, Copy, Debug, PartialEq, Eq, Error)]
pub enum NumFault {
    /// There is no place for a digit: the word is empty, or `0x` alone.
    #[error("no digit")]
    Empty,
    /// The first byte that is no digit, counted from the start of the word.
    #[error("no digit at byte {0}")]
    BadDigit(usize),
    /// The value is 2^64 or more.
    #[error("too large")]
    TooLarge,
}

/// The number that a word stands for: decimal digits, or `0x` and hexadecimal digits of either case.
/// Leading zeros are allowed, in words of any length. (This project's rule.)
pub fn read_number(bytes: &[u8]) -> Result<u64, NumFault>
    ensures { result ≡ number_of bytes.now }
{
    if bytes.starts_with(b"0x") {
        read_digits(16, 2, bytes)
    } else {
        read_digits(10, 0, bytes)
    }
}

fn read_digits(base: u64, start: usize, word: &[u8]) -> Result<u64, NumFault>
    requires base { 1 ≤ base }
    requires start { start ≤ length word.now }
    ensures { result ≡ number_in base start (drop start word.now) }
{
    let digits = &word[start..];
    if digits.is_empty() {
        return Err(NumFault::Empty);
    }
    if let Some(value) = value_of(base, digits) {
        return Ok(value);
    }
    match first_bad_place(base, digits) {
        Some(at) => Err(NumFault::BadDigit(start + at)),
        None => Err(NumFault::TooLarge),
    }
}

fn first_bad_place(base: u64, digits: &[u8]) -> Option<usize>
    ensures { result ≡ first_bad_place base digits.now }
{
    digits.iter().position(|byte| !is_digit(*byte, base))
}

fn is_digit(byte: u8, base: u64) -> bool
    ensures { result ≡ is_digit byte base }
{
    digit_of(byte) < base
}

/// The value of the digits in the base, where each byte is one and 64 bits hold it.
fn value_of(base: u64, digits: &[u8]) -> Option<u64>
    requires { 1 ≤ base }
    ensures { SomeIff result ((first_bad_place base digits.now ≡ None) × (digits_value base digits.now < 2 ^ 64)) (digits_value base digits.now) }
{
    let mut value = 0u64;
    for byte in digits {
        let digit = digit_of(*byte);
        if digit >= base {
            return None;
        }
        value = value.checked_mul(base)?.checked_add(digit)?;
    }
    Some(value)
}

/// The value of a digit or a letter, and 36 for any other byte.
fn digit_of(byte: u8) -> u64
    ensures { result ≡ digit_value byte }
{
    match byte {
        b'0'..=b'9' => u64::from(byte - b'0'),
        b'a'..=b'z' => 10 + u64::from(byte - b'a'),
        b'A'..=b'Z' => 10 + u64::from(byte - b'A'),
        _ => 36,
    }
}
