//! The first of the rules K2 to K8 that a block breaks.

ghost use Rattle.std.specs.Prelude.{◌≡◌, ℕ, ◌+◌, ◌↔◌, true, IsNone, IfSome};
ghost use Rattle.cxl_regs.specs.Registers.{Registers};
ghost use Rattle.cxl_regs.specs.Reading.{span_length};
ghost use Rattle.cxl_span.specs.Breaches.{BlockKeeps, IsFirstBlockBreach};
ghost use Rattle.cxl_span.specs.inner.Least.{IsLeastAt, IsFoundBelow};

use crate::rules::least_rule;
use cxl_regs::{Block, Decoder};

/// The rule that a block breaks, from 2 to 8 for K2 to K8, and the decoder that breaks it.
#[derive(Clone, Copy, PartialEq, Eq)]
pub struct BlockBreach {
    pub rule: u8,
    pub decoder: u8,
}

/// The first rule of K2 to K8 that the block breaks, at the first decoder that breaks it. `ram` and `pmem`
/// are the bytes of an endpoint's device; a port's are not looked at. (This project's rules.)
pub fn block_breach(block: &Block, ram: u64, pmem: u64) -> Option<BlockBreach>
    ensures none { IsNone result ↔ BlockKeeps block.now ram pmem }
    ensures first { IfSome result (λ breach. IsFirstBlockBreach block.now ram pmem breach.rule breach.decoder) }
{
    let endpoint = block.endpoint();
    let mut first = None;
    let mut taken = 0;
    let mut below: Option<Decoder> = None;
    for i in 0..block.count() {
        let d = block.decoder(i);
        let len = span_bytes(endpoint, &d);
        let start = taken + u128::from(d.tail);
        let rule = least_rule(block, ram, pmem, below, start, len, &d);
        first = earlier(first, i, rule);
        taken = start + u128::from(len);
        below = Some(d);
    }
    first
}

/// How many bytes of its device an endpoint's decoder takes; a port's takes none.
fn span_bytes(endpoint: bool, d: &Decoder) -> u64
    ensures { endpoint ≡ true → result ≡ span_length d.now }
{
    if endpoint { d.span_length() } else { 0 }
}

/// The first breach of the decoders up to this one, from that of the decoders before and the least rule that it breaks
/// itself: the least rule goes first.
fn earlier(first: Option<BlockBreach>, decoder: u8, rule: Option<u8>) -> Option<BlockBreach>
    ensures { (block : Registers) (ram pmem : ℕ) → IsFoundBelow block ram pmem decoder first
        → IsLeastAt block ram pmem decoder rule → IsFoundBelow block ram pmem (decoder + 1) result }
{
    let Some(rule) = rule else {
        return first;
    };
    if let Some(breach) = first {
        if breach.rule <= rule {
            return first;
        }
    }
    Some(BlockBreach { rule, decoder })
}
