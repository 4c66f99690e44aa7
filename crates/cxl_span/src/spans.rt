//! Where the spans of an endpoint's decoders stand, and the device byte of a host address.

ghost use Rattle.std.specs.Prelude.{◌≡◌, ◌+◌, ◌*◌, ◌/◌, ◌^◌, ◌<◌, ◌≤◌, if◌then◌else◌, length, take, sum_by};
ghost use Rattle.cxl_span.specs.Spans.{span_step, span_start_of, endpoint_place_of};

use cxl_enc::split;
use cxl_regs::{Block, Decoder};

/// The device address at which the span of decoder `i` starts: the skips of all decoders up to it count.
/// (CXL endpoint decode.) It is meant for a committed decoder of an endpoint's block that keeps the rules K2
/// to K7; a ways code that stands for none counts as one way.
pub fn start_of(block: &Block, i: u8) -> u64
    requires here { i < length block.now.decoders }
    requires fits { span_start_of block.now.decoders i < 2 ^ 64 }
    ensures { result ≡ span_start_of block.now.decoders i }
{
    let taken = taken_before(block, i);
    let skip = block.decoder(i).tail;
    (taken + u128::from(skip)) as u64
}

/// How many device bytes the decoders before decoder `i` skip and take.
pub(crate) fn taken_before(block: &Block, i: u8) -> u128
    requires { i ≤ length block.now.decoders }
    ensures value { result ≡ sum_by span_step (take i block.now.decoders) }
    ensures small { result ≤ i * 2 ^ 65 }
{
    let mut taken = 0;
    for j in 0..i {
        let d = block.decoder(j);
        taken += span_step(&d);
    }
    taken
}

/// What a decoder skips, and then takes.
pub(crate) fn span_step(d: &Decoder) -> u128
    ensures value { result ≡ span_step d.now }
    ensures small { result ≤ 2 ^ 65 }
{
    u128::from(d.tail) + u128::from(d.span_length())
}

/// The device address to which an endpoint's decoder sends a host address, where its span starts there; an
/// address below its base counts as the base. The condition on the granularity holds of each decoder of a
/// block. (CXL endpoint decode.)
pub fn endpoint_place_of(start: u64, d: &Decoder, h: u64) -> u64
    requires gran { d.now.gran < 16 }
    requires fits { start + h < 2 ^ 64 }
    ensures { result ≡ endpoint_place_of start d.now h }
{
    let factors = split(d.interleave_ways());
    let offset = h.saturating_sub(d.base);
    let shift = d.gran + 8;
    let turn = third_part(offset >> (shift + factors.bits), factors.third);
    start + (turn << shift) + offset % u64::from(d.interleave_granularity())
}

/// A third of a number where the ways are thrice a power of two, and else the number.
fn third_part(n: u64, third: bool) -> u64
    ensures { result ≡ n / (if third then 3 else 1) }
{
    if third { n / 3 } else { n }
}
