//! K2 to K8: why a decoder breaks a rule of its own block.

ghost use Rattle.std.specs.Prelude.{◌≡◌, ◌+◌, ◌<◌, ◌≤◌, length, slice_get, Some};
ghost use Rattle.cxl_enc.specs.Limits.{address_limit};
ghost use Rattle.cxl_regs.specs.Rules.{before};
ghost use Rattle.cxl_cause.specs.BlockCauses.{commit_order_cause, size_cause, base_order_cause, rule_cause, block_cause};
ghost use Rattle.cxl_span.specs.Spans.{span_start_of};
ghost use Rattle.cxl_regs.specs.declared.decoder.Decoder.{Decoder};
ghost use Rattle.cxl_model.specs.Hosts.{as_system};

use crate::capacity::capacity_cause;
use crate::cause::Cause;
use crate::codes::{codes_cause, flags_cause, select_cause};
use crate::sizes::size_cause;
use cxl_model::Host;
use cxl_regs::{Block, Decoder, breaks_order};
use cxl_topo::{Capacity, capacity_at};

/// The cause of one of the rules K2 to K8 at decoder `i` of a node.
pub(crate) fn block_cause(host: &Host, rule: u8, node: u32, i: u8) -> Option<Cause>
    requires { node < length host.now.topo.now.nodes }
    ensures { result ≡ block_cause (as_system host.now) rule node i }
{
    if node >= host.image.count() {
        return None;
    }
    let block = host.image.block(node);
    if i >= block.count() {
        return None;
    }
    rule_cause(rule, block, &capacity_at(host.topo, node), i)
}

/// The same of a block on a device of this capacity.
fn rule_cause(rule: u8, block: &Block, capacity: &Capacity, i: u8) -> Option<Cause>
    requires here { i < length block.now.decoders }
    requires small { capacity.now.ram + capacity.now.pmem ≤ address_limit }
    ensures { (d : Decoder) → slice_get block.now.decoders i ≡ Some d → result
        ≡ rule_cause rule block.now capacity.now.ram capacity.now.pmem (before block.now.decoders i) (span_start_of block.now.decoders i) d }
{
    let d = block.decoder(i);
    match rule {
        2 => commit_order_cause(block, decoder_before(block, i), &d),
        3 => flags_cause(&d),
        4 => codes_cause(block, &d),
        5 => select_cause(block, &d),
        6 => size_cause(block, &d),
        7 => base_order_cause(decoder_before(block, i), &d),
        8 => capacity_cause(block, capacity, i),
        _ => None,
    }
}

/// The decoder before decoder `i`.
fn decoder_before(block: &Block, i: u8) -> Option<Decoder>
    requires { i < length block.now.decoders }
    ensures { result ≡ before block.now.decoders i }
{
    if i == 0 {
        return None;
    }
    Some(block.decoder(i - 1))
}

/// The cause of K2.
fn commit_order_cause(block: &Block, below: Option<Decoder>, d: &Decoder) -> Option<Cause>
    ensures { result ≡ commit_order_cause block.now below d.now }
{
    if !d.committed {
        return None;
    }
    if breaks_order(below) {
        return Some(Cause::NotCommittedBelow);
    }
    if block.enabled() {
        return None;
    }
    Some(Cause::NotDecoding)
}

/// The cause of K7.
fn base_order_cause(below: Option<Decoder>, d: &Decoder) -> Option<Cause>
    ensures { result ≡ base_order_cause below d.now }
{
    if !d.committed {
        return None;
    }
    let b = below?;
    if u128::from(d.base) < u128::from(b.base) + u128::from(b.size) {
        return Some(Cause::Under { below: b.range() });
    }
    None
}
