//! K3, K4 and K5: why flags, codes or address bits are not those of a decoder that its block can commit.

ghost use Rattle.std.specs.Prelude.{◌≡◌};
ghost use Rattle.cxl_regs.specs.Rules.{selects};
ghost use Rattle.cxl_cause.specs.BlockCauses.{flags_cause, endpoint_ways_cause, port_ways_cause, codes_cause, lacked_bit, select_cause};

use crate::cause::Cause;
use cxl_enc::{CAP_HIGH, CAP_LOW, CAP_WAYS3, CAP_WAYS16, has_bit, target_count, ways_of};
use cxl_regs::{Block, Decoder};

/// The cause of K3 at a decoder.
pub(crate) fn flags_cause(d: &Decoder) -> Option<Cause>
    ensures { result ≡ flags_cause d.now }
{
    if d.error {
        return Some(Cause::ErrorSet);
    }
    match (d.committed, d.commit) {
        (true, true) if d.host_only => None,
        (true, true) => Some(Cause::NotHostOnly),
        (true, false) => Some(Cause::CommittedAlone),
        (false, true) => Some(Cause::CommitAlone),
        (false, false) => None,
    }
}

/// The cause of K4.
pub(crate) fn codes_cause(block: &Block, d: &Decoder) -> Option<Cause>
    ensures { result ≡ codes_cause block.now d.now }
{
    let cap = block.cap();
    if !d.committed {
        return None;
    }
    if d.gran > 6 {
        return Some(Cause::GranularityCode { code: d.gran, cap });
    }
    if block.endpoint() {
        endpoint_ways_cause(cap, d.ways)
    } else {
        port_ways_cause(cap, d.ways)
    }
}

/// That of an endpoint's ways.
fn endpoint_ways_cause(cap: u32, code: u8) -> Option<Cause>
    ensures { result ≡ endpoint_ways_cause cap code }
{
    match code {
        0..=3 => None,
        4 if has_bit(cap, CAP_WAYS16) => None,
        8..=10 if has_bit(cap, CAP_WAYS3) => None,
        4 | 8..=10 => Some(Cause::WaysLacked { code, cap }),
        _ => Some(Cause::WaysCode { code, cap }),
    }
}

/// That of a port's ways.
fn port_ways_cause(cap: u32, code: u8) -> Option<Cause>
    ensures { result ≡ port_ways_cause cap code }
{
    if code <= 3 {
        if (1 << code) <= target_count(cap) {
            return None;
        }
        return Some(Cause::TooFewTargets { code, cap });
    }
    if ways_of(code).is_some() {
        return Some(Cause::WaysOfNoPort { code, cap });
    }
    Some(Cause::WaysCode { code, cap })
}

/// The cause of K5.
pub(crate) fn select_cause(block: &Block, d: &Decoder) -> Option<Cause>
    ensures { result ≡ select_cause block.now d.now }
{
    let cap = block.cap();
    if !d.committed {
        return None;
    }
    match lacked_bit(cap, d) {
        Some(bit) => Some(Cause::SelectBit { bit, cap }),
        None => None,
    }
}

/// The first address bit of a decoder that its block does not select on.
fn lacked_bit(cap: u32, d: &Decoder) -> Option<u16>
    ensures { result ≡ lacked_bit cap d.now }
{
    for k in 0..d.select_bits() {
        let bit = u16::from(d.gran) + 8 + u16::from(k);
        if !selects(cap, bit) {
            return Some(bit);
        }
    }
    None
}

/// Whether a block selects on an address bit: 11:8 and 14:12, each with a bit of its capability word.
fn selects(cap: u32, bit: u16) -> bool
    ensures { result ≡ selects cap bit }
{
    match bit {
        8..=11 => has_bit(cap, CAP_LOW),
        12..=14 => has_bit(cap, CAP_HIGH),
        _ => false,
    }
}
