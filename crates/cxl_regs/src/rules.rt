//! What a capability word lets a block's decoders commit.

ghost use Rattle.std.specs.Prelude.{◌≡◌, ◌*◌, ◌%◌};
ghost use Rattle.cxl_enc.specs.Caps.{decoders_code, decoders_of};
ghost use Rattle.cxl_regs.specs.Rules.{port_ways_ok, endpoint_ways_ok, codes_ok, selects, select_ok, breaks_order, breaks_rise};

use crate::decoder::Decoder;
use cxl_enc::{CAP_HIGH, CAP_LOW, CAP_WAYS3, CAP_WAYS16, has_bit, target_count};

/// How many decoders a capability word states. (CXL HDM decoder capability.)
pub fn decoder_count(cap: u32) -> u8
    ensures { result ≡ decoders_of (decoders_code cap) }
{
    match cap % 16 {
        0 => 1,
        code => 2 * code as u8,
    }
}

/// Whether a block with this capability word can commit the decoder's ways and granularity codes. (CXL
/// HDM decoder control; that a port's ways are 1, 2, 4 or 8 is this project's rule.)
pub fn codes_ok(cap: u32, endpoint: bool, d: &Decoder) -> bool
    ensures { result ≡ codes_ok cap endpoint d.now }
{
    d.gran <= 6
        && if endpoint {
            endpoint_ways_ok(cap, d.ways)
        } else {
            port_ways_ok(cap, d.ways)
        }
}

fn port_ways_ok(cap: u32, ways: u8) -> bool
    ensures { result ≡ port_ways_ok cap ways }
{
    ways <= 3 && (1 << ways) <= target_count(cap)
}

fn endpoint_ways_ok(cap: u32, ways: u8) -> bool
    ensures { result ≡ endpoint_ways_ok cap ways }
{
    match ways {
        0..=3 => true,
        4 => has_bit(cap, CAP_WAYS16),
        8..=10 => has_bit(cap, CAP_WAYS3),
        _ => false,
    }
}

/// Whether a block with this capability word can select on the `bits` address bits from bit `gran + 8`
/// on. (CXL HDM decoder capability; that the bits end at 14 is this project's rule.)
pub fn select_ok(cap: u32, gran: u8, bits: u8) -> bool
    ensures { result ≡ select_ok cap gran bits }
{
    let first = u32::from(gran) + 8;
    (first..first + u32::from(bits)).all(|bit| selects(cap, bit))
}

fn selects(cap: u32, bit: u32) -> bool
    ensures { result ≡ selects cap bit }
{
    match bit {
        8..=11 => has_bit(cap, CAP_LOW),
        12..=14 => has_bit(cap, CAP_HIGH),
        _ => false,
    }
}

/// Whether the decoder before is not committed.
pub fn breaks_order(before: Option<Decoder>) -> bool
    ensures { result ≡ breaks_order before }
{
    before.is_some_and(|b| !b.committed)
}

/// Whether the base lies below the end of the decoder before.
pub fn breaks_rise(before: Option<Decoder>, d: &Decoder) -> bool
    ensures { result ≡ breaks_rise before d.now }
{
    before.is_some_and(|b| d.base < b.base || d.base - b.base < b.size)
}
