//! XOR maps: which can be used, and what an address comes to under them.

ghost use Rattle.std.specs.Prelude.{◌≡◌, ◌<◌, ◌≤◌, ◌^◌, length};
ghost use Rattle.cxl_num.specs.Maps.{is_usable_map, are_usable_maps, parity_under, parities, with_raw_bits};

use crate::bits::{low_bits, parity};
use cxl_enc::ADDRESS_LIMIT;

/// Whether the first `bits` maps are there and can be used at a granularity code. (ACPI CEDT, CXIMS; what
/// can be used is this project's rule.)
pub fn are_usable_maps(gran: u8, bits: u8, maps: &[u64]) -> bool
    requires gran { gran ≤ 6 }
    requires bits { bits ≤ 4 }
    ensures { result ≡ are_usable_maps gran bits maps.now }
{
    for i in 0..bits {
        let Some(map) = maps.get(usize::from(i)) else {
            return false;
        };
        if !is_usable_map(gran, bits, i, *map) {
            return false;
        }
    }
    true
}

/// Whether bit `gran + 8 + i` is the map's only one up to bit `gran + 7 + bits`, and none is above bit 51.
fn is_usable_map(gran: u8, bits: u8, i: u8, map: u64) -> bool
    requires gran { gran ≤ 6 }
    requires bits { bits ≤ 4 }
    requires place { i < bits }
    ensures { result ≡ is_usable_map gran bits i map }
{
    let lowest = gran + 8 + i;
    low_bits(map, lowest) == 0 && low_bits(map >> lowest, bits - i) == 1 && map < ADDRESS_LIMIT
}

/// The parities of an address under the first maps, the first map's in the lowest bit. (ACPI CEDT, CXIMS.)
pub fn parities(maps: &[u64], bits: u8, h: u64) -> u32
    requires few { bits ≤ 4 }
    requires maps { bits ≤ length maps.now }
    ensures value { result ≡ parities bits maps.now h }
    ensures few { result < 2 ^ bits }
{
    let mut sum = 0;
    for i in (0..usize::from(bits)).rev() {
        sum = 2 * sum + parity_under(maps[i], h);
    }
    sum
}

/// The parity of the address's bits that the map takes.
fn parity_under(map: u64, h: u64) -> u32
    ensures value { result ≡ parity_under map h }
    ensures bit { result < 2 }
{
    u32::from(parity(h & map))
}

/// The address with its raw bits, which are as many as `bits` from the granularity on, replaced by `raw`.
pub fn with_raw_bits(gran: u8, bits: u8, h: u64, raw: u32) -> u64
    requires gran { gran ≤ 6 }
    requires bits { bits ≤ 4 }
    requires raw { raw < 2 ^ bits }
    ensures { result ≡ with_raw_bits gran bits h raw }
{
    let shift = gran + 8;
    let own = low_bits(h >> shift, bits);
    h - (own << shift) + (u64::from(raw) << shift)
}
