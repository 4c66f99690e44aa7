//! Numbers at places of a text, lowest byte first.

ghost use Rattle.std.specs.Prelude.{◌≡◌, ◌+◌, ◌*◌, ◌^◌, ◌≤◌, ◌++◌, length, IfOk, OnOk};
ghost use Rattle.cxl_cedt.specs.Table.{field, fields};
ghost use Rattle.cxl_cedt.specs.Spelling.{number_bytes, numbers_bytes};
ghost use Rattle.cxl_cedt.specs.inner.Widths.{AreBelow};

use byteorder::{ByteOrder, LittleEndian};
use cxl_enc::Memory;
use std::alloc::Global;

pub fn u8_at(text: &[u8], at: usize) -> u8
    requires { at + 1 ≤ length text.now }
    ensures { result ≡ field text.now at 1 }
{
    text[at]
}

pub fn u16_at(text: &[u8], at: usize) -> u16
    requires { at + 2 ≤ length text.now }
    ensures { result ≡ field text.now at 2 }
{
    LittleEndian::read_u16(&text[at..])
}

pub fn u32_at(text: &[u8], at: usize) -> u32
    requires { at + 4 ≤ length text.now }
    ensures { result ≡ field text.now at 4 }
{
    LittleEndian::read_u32(&text[at..])
}

pub fn u64_at(text: &[u8], at: usize) -> u64
    requires { at + 8 ≤ length text.now }
    ensures { result ≡ field text.now at 8 }
{
    LittleEndian::read_u64(&text[at..])
}

/// `count` numbers, one after the other.
pub fn u32s_at(alloc: Global, text: &[u8], at: usize, count: usize) -> Result<Vec<u32>, Memory>
    requires { at + 4 * count ≤ length text.now }
    ensures { IfOk result (λ numbers. numbers.items ≡ fields text.now at 4 count) }
{
    let mut numbers = vec![in alloc; 0; count]?;
    LittleEndian::read_u32_into(&text[at..at + 4 * count], &mut numbers);
    Ok(numbers)
}

/// `count` numbers, one after the other.
pub fn u64s_at(alloc: Global, text: &[u8], at: usize, count: usize) -> Result<Vec<u64>, Memory>
    requires { at + 8 * count ≤ length text.now }
    ensures { IfOk result (λ numbers. numbers.items ≡ fields text.now at 8 count) }
{
    let mut numbers = vec![in alloc; 0; count]?;
    LittleEndian::read_u64_into(&text[at..at + 8 * count], &mut numbers);
    Ok(numbers)
}

/// Appends a number.
#[tactic(auto, unfolding(crate::specs::Spelling::number_bytes))]
pub fn put_u16(out: &mut Vec<u8>, number: u16) -> Result<(), Memory>
    ensures { OnOk result (out.new.items ≡ out.old.items ++ number_bytes 2 number) }
{
    let mut bytes = [0; 2];
    LittleEndian::write_u16(&mut bytes, number);
    out.extend_from_slice(&bytes)?;
    Ok(())
}

/// Appends a number.
#[tactic(auto, unfolding(crate::specs::Spelling::number_bytes))]
pub fn put_u32(out: &mut Vec<u8>, number: u32) -> Result<(), Memory>
    ensures { OnOk result (out.new.items ≡ out.old.items ++ number_bytes 4 number) }
{
    let mut bytes = [0; 4];
    LittleEndian::write_u32(&mut bytes, number);
    out.extend_from_slice(&bytes)?;
    Ok(())
}

/// Appends a number.
#[tactic(auto, unfolding(crate::specs::Spelling::number_bytes))]
pub fn put_u64(out: &mut Vec<u8>, number: u64) -> Result<(), Memory>
    ensures { OnOk result (out.new.items ≡ out.old.items ++ number_bytes 8 number) }
{
    let mut bytes = [0; 8];
    LittleEndian::write_u64(&mut bytes, number);
    out.extend_from_slice(&bytes)?;
    Ok(())
}

/// Appends numbers, one after the other.
pub fn put_u32s(out: &mut Vec<u8>, numbers: &[u32]) -> Result<(), Memory>
    ensures spelled { OnOk result (out.new.items ≡ out.old.items ++ numbers_bytes 4 numbers.now) }
    ensures fits { AreBelow (2 ^ 32) numbers.now }
{
    for number in numbers {
        put_u32(out, *number)?;
    }
    Ok(())
}

/// Appends numbers, one after the other.
pub fn put_u64s(out: &mut Vec<u8>, numbers: &[u64]) -> Result<(), Memory>
    ensures spelled { OnOk result (out.new.items ≡ out.old.items ++ numbers_bytes 8 numbers.now) }
    ensures fits { AreBelow (2 ^ 64) numbers.now }
{
    for number in numbers {
        put_u64(out, *number)?;
    }
    Ok(())
}
