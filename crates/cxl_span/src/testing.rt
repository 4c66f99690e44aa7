//! Whether one decoder of a block breaks one of the rules K2 to K8.

ghost use Rattle.std.specs.Prelude.{◌≡◌, ◌^◌, ◌<◌, length};
ghost use Rattle.cxl_regs.specs.Rules.{before};
ghost use Rattle.cxl_span.specs.Breaches.{breaks};
ghost use Rattle.cxl_span.specs.Rules.{breaks_rule};

use crate::rules::{
    breaks_base_order, breaks_capacity, breaks_codes, breaks_commit_order, breaks_flags,
    breaks_select, breaks_size,
};
use crate::spans::taken_before;
use cxl_regs::{Block, Decoder};

/// Whether decoder `i` breaks the rule of this number, from 2 to 8 for K2 to K8; it breaks none of another number. `ram` and
/// `pmem` are the bytes of an endpoint's device; a port's are not looked at. (This project's rules.)
pub fn breaks_at(block: &Block, ram: u64, pmem: u64, rule: u8, i: u8) -> bool
    requires { i < length block.now.decoders }
    ensures { result ≡ breaks rule block.now ram pmem i }
{
    let d = block.decoder(i);
    let start = taken_before(block, i) + u128::from(d.tail);
    breaks_rule(rule, block, ram, pmem, decoder_before(block, i), start, &d)
}

/// The decoder before decoder `i`.
fn decoder_before(block: &Block, i: u8) -> Option<Decoder>
    requires { i < length block.now.decoders }
    ensures { result ≡ before block.now.decoders i }
{
    if i == 0 {
        return None;
    }
    Some(block.decoder(i - 1))
}

/// Whether a decoder with this one before it, and with a span that starts there, breaks the rule of this number.
fn breaks_rule(
    rule: u8,
    block: &Block,
    ram: u64,
    pmem: u64,
    below: Option<Decoder>,
    start: u128,
    d: &Decoder,
) -> bool
    requires { start < 2 ^ 100 }
    ensures { result ≡ breaks_rule rule block.now ram pmem below start d.now }
{
    match rule {
        2 => breaks_commit_order(block, below, d),
        3 => breaks_flags(d),
        4 => breaks_codes(block, d),
        5 => breaks_select(block, d),
        6 => breaks_size(block, d),
        7 => breaks_base_order(below, d),
        8 => breaks_capacity(block, ram, pmem, start, d),
        _ => false,
    }
}
