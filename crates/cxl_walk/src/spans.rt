//! The span of a decoder that holds a device byte.

ghost use Rattle.std.specs.Prelude.{◌≡◌, ℕ, ◌+◌, ◌<◌, ◌≤◌, true, length, IfSome, IfNone};
ghost use Rattle.cxl_enc.specs.Limits.{address_limit};
ghost use Rattle.cxl_regs.specs.declared.decoder.Decoder.{Decoder};
ghost use Rattle.cxl_span.specs.Breaches.{BlockKeeps};
ghost use Rattle.cxl_walk.specs.inner.WaysUp.{IsSpanByte};

use cxl_regs::{Block, Decoder};
use cxl_span::{ranges_rise, spans_lie_in_partitions, start_of};
use cxl_topo::Capacity;

/// A device byte in the span of a committed decoder.
#[derive(Clone, Copy)]
pub(crate) struct SpanByte {
    pub(crate) decoder: Decoder,
    /// How many bytes it lies behind the start of the span.
    pub(crate) along: u64,
}

/// The span of an endpoint's block that holds a device byte.
pub(crate) fn committed_byte(block: &Block, capacity: &Capacity, dpa: u64) -> Option<SpanByte>
    requires small { capacity.now.ram + capacity.now.pmem ≤ address_limit }
    requires keeps { BlockKeeps block.now capacity.now.ram capacity.now.pmem }
    requires endpoint { block.now.endpoint ≡ true }
    ensures some { IfSome result (λ byte. (i : ℕ) × IsSpanByte block.now.decoders dpa i byte.decoder byte.along) }
    ensures fits { IfSome result (λ byte. (byte.decoder.gran < 16)
        × (byte.decoder.base < address_limit) × (byte.along < address_limit)) }
    ensures none { IfNone result ((i along : ℕ) (d : Decoder) → IsSpanByte block.now.decoders dpa i d along → ⊥) }
{
    for i in 0..block.count() {
        if let Some(byte) = byte_of(block, capacity, i, dpa) {
            return Some(byte);
        }
    }
    None
}

/// The same, where it is the span of this decoder.
fn byte_of(block: &Block, capacity: &Capacity, i: u8, dpa: u64) -> Option<SpanByte>
    requires small { capacity.now.ram + capacity.now.pmem ≤ address_limit }
    requires keeps { BlockKeeps block.now capacity.now.ram capacity.now.pmem }
    requires endpoint { block.now.endpoint ≡ true }
    requires here { i < length block.now.decoders }
    ensures some { IfSome result (λ byte. IsSpanByte block.now.decoders dpa i byte.decoder byte.along) }
    ensures fits { IfSome result (λ byte. (byte.decoder.gran < 16)
        × (byte.decoder.base < address_limit) × (byte.along < address_limit)) }
    ensures none { IfNone result ((along : ℕ) (d : Decoder) → IsSpanByte block.now.decoders dpa i d along → ⊥) }
{
    ranges_rise();
    spans_lie_in_partitions();
    let decoder = block.decoder(i);
    if !decoder.committed {
        return None;
    }
    let start = start_of(block, i);
    if dpa < start || dpa - start >= decoder.span_length() {
        return None;
    }
    Some(SpanByte {
        decoder,
        along: dpa - start,
    })
}
