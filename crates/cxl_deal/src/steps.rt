//! The steps of dealing, over plain numbers.

ghost use Rattle.std.specs.Prelude.{◌≡◌, ◌+◌, ◌*◌, ◌/◌, ◌%◌, ◌<◌, ◌≤◌};
ghost use Rattle.cxl_enc.specs.Limits.{address_limit};
ghost use Rattle.cxl_num.specs.Interleave.{chunk_size, ways_by};

use cxl_enc::Factors;
use cxl_num::{factor_of, low_bits, ways_by};

/// Where a byte of a region is dealt: the slot, and how many bytes into the slot's span.
#[derive(Clone, Copy, PartialEq, Eq)]
pub struct Dealt {
    pub slot: u32,
    pub offset: u64,
}

/// Where the byte o of a region is dealt with no maps, `gran` being the granularity code.
pub fn deal_along(factors: Factors, gran: u8, o: u64) -> Dealt
    requires few { factors.bits ≤ 4 }
    requires gran_known { gran ≤ 6 }
    requires below { o < address_limit }
    ensures slot { result.slot ≡ o / chunk_size gran % ways_by factors.third factors.bits }
    ensures offset { result.offset ≡ o / chunk_size gran / ways_by factors.third factors.bits
        * chunk_size gran + o % chunk_size gran }
{
    let shift = gran + 8;
    let chunk = o >> shift;
    let turn = turn(factors, chunk);
    let place = chunk - turn * ways_by(factors);
    Dealt {
        slot: place as u32,
        offset: (turn << shift) + low_bits(o, shift),
    }
}

/// The byte of a region that is dealt to a slot and an offset with no maps.
pub fn gather_along(factors: Factors, gran: u8, slot: u32, offset: u64) -> u64
    requires few { factors.bits ≤ 4 }
    requires gran_known { gran ≤ 6 }
    requires slot_below { slot < ways_by factors.third factors.bits }
    requires fits { (offset / chunk_size gran + 1) * ways_by factors.third factors.bits
        * chunk_size gran ≤ address_limit }
    ensures { result ≡ (offset / chunk_size gran * ways_by factors.third factors.bits + slot)
        * chunk_size gran + offset % chunk_size gran }
{
    let shift = gran + 8;
    let chunk = (offset >> shift) * ways_by(factors) + u64::from(slot);
    (chunk << shift) + low_bits(offset, shift)
}

/// How often the ways went round before a chunk.
fn turn(factors: Factors, chunk: u64) -> u64
    requires { factors.bits ≤ 4 }
    ensures { result ≡ chunk / ways_by factors.third factors.bits }
{
    (chunk >> factors.bits) / factor_of(factors.third)
}
