//! The weave of a region: base, granularity, ways and maps by which its bytes are dealt.

ghost use Rattle.std.specs.Prelude.{◌≡◌, ℕ, ◌+◌, ◌/◌, ◌<◌, ◌≤◌};
ghost use Rattle.cxl_enc.specs.Limits.{address_limit};
ghost use Rattle.cxl_num.specs.Interleave.{chunk_size, ways_by};
ghost use Rattle.cxl_deal.specs.Weaves.{weave_ways, turns_end, dealt_slot, dealt_offset};
ghost use Rattle.cxl_deal.specs.Swaps.{swapped};

use crate::steps::{Dealt, deal_along, gather_along};
use cxl_enc::Factors;
use cxl_num::{parities, parities_tell_raw_bits, raw_bits_are_replaced, ways_by, with_raw_bits};
use std::marker::Model;

/// How the bytes of a region are dealt over its slots: chunk by chunk, at a base address and a granularity
/// code, over `t * 2^(root_bits + low_bits)` ways, t being 3 where `third` and else 1. Under XOR the
/// parities under the first `root_bits` maps stand in place of as many chunk bits. (CXL interleave
/// arithmetic, CXIMS.)
#[derive(Clone, Copy, PartialEq, Eq)]
pub struct Weave {
    base: u64,
    gran: u8,
    root_bits: u8,
    third: bool,
    low_bits: u8,
    xor: bool,
    maps: [u64; 4],
}

impl Model for Weave {
    ghost use Rattle.cxl_deal.specs.Weaves.{WeaveFields, IsWeave};

    ghost Value = { WeaveFields };

    ghost use Rattle.cxl_deal.specs.WeaveInside.{fields_of, inside_of};

    ghost view = { fields_of };

    ghost invariant = { λ w. IsWeave (fields_of w) };

    ghost inverse = { inside_of };
}

impl Weave {
    ghost use Rattle.std.specs.Prelude.{◌≡◌, ◌+◌, ◌%◌, ◌≤◌, IsTrue};
    ghost use Rattle.cxl_enc.specs.Limits.{unit};
    ghost use Rattle.cxl_num.specs.Maps.{are_usable_maps};
    ghost use Rattle.cxl_num.specs.Interleave.{ways_by};
    ghost use Rattle.cxl_deal.specs.Weaves.{IsWeave, weave_ways};

    /// The weave with these fields.
    pub fn new(
        base: u64,
        gran: u8,
        root_bits: u8,
        third: bool,
        low_bits: u8,
        xor: bool,
        maps: [u64; 4],
    ) -> Weave
        requires aligned { base % unit ≡ 0 }
        requires gran_known { gran ≤ 6 }
        requires few_ways { ways_by third (root_bits + low_bits) ≤ 16 }
        requires maps_usable { IsTrue xor → IsTrue (are_usable_maps gran root_bits maps) }
        ensures { result ≡ record {
          base = base;
          gran = gran;
          root_bits = root_bits;
          third = third;
          low_bits = low_bits;
          xor = xor;
          maps = maps;
        } }
    {
        Weave {
            base,
            gran,
            root_bits,
            third,
            low_bits,
            xor,
            maps,
        }
    }

    /// The number of ways, and so of slots: `t * 2^(root_bits + low_bits)`, at most 16.
    pub fn ways(&self) -> u8
        ensures value { result ≡ weave_ways self.now }
        ensures few { result ≤ 16 }
    {
        ways_by(factors(self)) as u8
    }

    /// The first host address.
    pub fn base(&self) -> u64
        ensures value { result ≡ self.now.base }
        ensures weave { IsWeave self.now }
    {
        self.base
    }

    /// The granularity code.
    pub fn gran(&self) -> u8
        ensures { result ≡ self.now.gran }
    {
        self.gran
    }

    /// How many low bits of a slot the root chooses.
    pub fn root_bits(&self) -> u8
        ensures { result ≡ self.now.root_bits }
    {
        self.root_bits
    }

    /// Whether three divides the ways.
    pub fn third(&self) -> bool
        ensures { result ≡ self.now.third }
    {
        self.third
    }

    /// How many bits of a slot the levels below the root choose.
    pub fn low_bits(&self) -> u8
        ensures { result ≡ self.now.low_bits }
    {
        self.low_bits
    }

    /// Whether the arithmetic is modulo with XOR.
    pub fn xor(&self) -> bool
        ensures { result ≡ self.now.xor }
    {
        self.xor
    }

    /// The XOR maps, one for each root bit; the others say nothing.
    pub fn maps(&self) -> [u64; 4]
        ensures { result ≡ self.now.maps }
    {
        self.maps
    }
}

/// Where a host address is dealt. (CXL interleave arithmetic; that the chunks are counted from the base,
/// also for the remainder by three under XOR, is this project's rule.)
pub fn deal(weave: &Weave, h: u64) -> Dealt
    requires from { weave.now.base ≤ h }
    requires below { h < address_limit }
    ensures slot { result.slot ≡ dealt_slot weave.now h }
    ensures offset { result.offset ≡ dealt_offset weave.now h }
    ensures within { result.slot < weave_ways weave.now }
{
    raw_bits_are_replaced();
    parities_tell_raw_bits();
    let along = swap(weave, h) - weave.base;
    deal_along(factors(weave), weave.gran, along)
}

/// The one host address that is dealt to a slot and an offset in bytes.
pub fn gather(weave: &Weave, slot: u32, offset: u64) -> u64
    requires slot_below { slot < weave_ways weave.now }
    requires fits { turns_end weave.now (offset / chunk_size weave.now.gran + 1) ≤ address_limit }
    ensures from { weave.now.base ≤ result }
    ensures below { result < address_limit }
    ensures slot { dealt_slot weave.now result ≡ slot }
    ensures offset { dealt_offset weave.now result ≡ offset }
    ensures only { (h : ℕ) → weave.now.base ≤ h → dealt_slot weave.now h ≡ slot
        → dealt_offset weave.now h ≡ offset → h ≡ result }
{
    raw_bits_are_replaced();
    parities_tell_raw_bits();
    let along = gather_along(factors(weave), weave.gran, slot, offset);
    swap(weave, weave.base + along)
}

/// The factors of the ways.
fn factors(weave: &Weave) -> Factors
    ensures ways { ways_by result.third result.bits ≡ weave_ways weave.now }
    ensures few_ways { weave_ways weave.now ≤ 16 }
    ensures few { result.bits ≤ 4 }
{
    Factors {
        third: weave.third,
        bits: weave.root_bits + weave.low_bits,
    }
}

/// Under XOR the address with its parities in place of its raw bits, and without XOR the address as it
/// is. To swap twice changes nothing, so dealing begins with this step and gathering ends with it.
fn swap(weave: &Weave, h: u64) -> u64
    requires { h < address_limit }
    ensures { result ≡ swapped weave.now h }
{
    if !weave.xor {
        return h;
    }
    let put = parities(&weave.maps, weave.root_bits, h);
    with_raw_bits(weave.gran, weave.root_bits, h, put)
}
