//! The positions of addresses among a window's targets.

ghost use Rattle.std.specs.Prelude.{◌≡◌, ◌<◌, ◌≤◌, ◌^◌, ℕ, Some};
ghost use Rattle.std.specs.Bool.{OnTrue, OnFalse};
ghost use Rattle.cxl_enc.specs.Codes.{bits_of};
ghost use Rattle.cxl_num.specs.Maps.{with_raw_bits};
ghost use Rattle.cxl_window.specs.declared.window.Verdict.TheVariants.{Usable};
ghost use Rattle.cxl_window.specs.Fields.{WindowFields, IsWindow};
ghost use Rattle.cxl_window.specs.Position.{position_at, holds, chunk_of, position_of, low_of, parities_of, target_position};

use crate::window::Window;
use cxl_enc::split;
use cxl_num::{factor_of, low_bits, parities, parities_tell_raw_bits, with_raw_bits};

/// The position of a host address: its place among the window's targets, and no slot of a region. `Some`
/// exactly where the window can be used and holds the address.
pub fn slot_of(window: &Window, h: u64) -> Option<u32>
    ensures { result ≡ position_at window.now h }
{
    if window.is_usable() && holds(window, h) {
        Some(position_of(window, h))
    } else {
        None
    }
}

/// The raw bits with which the address has these low parities: the k bits that, put in place of its bits
/// from granularity on, give the parities `low`. Without XOR they are `low`.
pub fn unxor(window: &Window, h: u64, low: u32) -> u32
    requires usable { window.now.verdict ≡ Usable }
    requires low { low < 2 ^ bits_of window.now.ways }
    ensures few { result < 2 ^ bits_of window.now.ways }
    ensures plain { OnFalse window.now.xor (result ≡ low) }
    ensures parities { OnTrue window.now.xor
        (parities_of window.now (with_raw_bits window.now.gran (bits_of window.now.ways) h result) ≡ low) }
    // No other raw bits give these parities.
    ensures only { OnTrue window.now.xor ((raw : ℕ) → raw < 2 ^ bits_of window.now.ways
        → parities_of window.now (with_raw_bits window.now.gran (bits_of window.now.ways) h raw) ≡ low
        → raw ≡ result) }
{
    if !window.xor() {
        return low;
    }
    // Parity i is raw bit i, and the parity of the other bits under map i.
    parities_tell_raw_bits();
    let bits = split(window.ways()).bits;
    let above = with_raw_bits(window.gran(), bits, h, 0);
    low ^ parities(window.maps(), bits, above)
}

/// The position of the window's target to which a slot of a region belongs.
pub fn target_position(window: &Window, slot: u8) -> u8
    requires { slot < 16 }
    ensures value { result ≡ target_position window.now slot }
    ensures within { result < window.now.ways }
{
    let factors = split(window.ways());
    let third = slot >> factors.bits;
    let turn = if factors.third { third % 3 } else { 0 };
    slot % (1 << factors.bits) + (turn << factors.bits)
}

/// How many positions of a window's targets share a remainder by three: 2 to the window's k.
pub fn root_ways(window: &Window) -> u32
    ensures value { result ≡ 2 ^ bits_of window.now.ways }
    ensures some { 0 < result }
    ensures few { result ≤ 16 }
{
    1 << split(window.ways()).bits
}

/// A law of positions: each is below the number of ways.
pub fn positions()
    ensures all { (w : WindowFields) (h : ℕ) → IsWindow w → position_of w h < w.ways }
    ensures found { (w : WindowFields) (h position : ℕ) → IsWindow w → position_at w h ≡ Some position
        → position < w.ways }
{
    parities_tell_raw_bits();
}

fn holds(window: &Window, h: u64) -> bool
    ensures { result ≡ holds window.now h }
{
    window.base() <= h && h - window.base() < window.size()
}

/// The position of an address at or behind the window's base.
fn position_of(window: &Window, h: u64) -> u32
    requires { window.now.base ≤ h }
    ensures { result ≡ position_of window.now h }
{
    let factors = split(window.ways());
    let chunk = chunk_of(window, h);
    let low = low_of(window, chunk, factors.bits, h);
    let third = (chunk >> factors.bits) % factor_of(factors.third);
    low + ((third as u32) << factors.bits)
}

/// The number of the chunk that holds the address, from the window's base.
fn chunk_of(window: &Window, h: u64) -> u64
    requires { window.now.base ≤ h }
    ensures { result ≡ chunk_of window.now h }
{
    (h - window.base()) >> (window.gran() + 8)
}

/// The low part of a position: the chunk's low bits, or the parities under XOR.
fn low_of(window: &Window, chunk: u64, bits: u8, h: u64) -> u32
    requires chunk { chunk ≡ chunk_of window.now h }
    requires bits { bits ≡ bits_of window.now.ways }
    requires few { bits ≤ 4 }
    ensures value { result ≡ low_of window.now h }
    ensures few { result < 2 ^ bits }
{
    if window.xor() {
        return parities(window.maps(), bits, h);
    }
    low_bits(chunk, bits) as u32
}
