//! Laws of a block that keeps the rules K2 to K8, each the contract of a function that does nothing.

ghost use Rattle.std.specs.Prelude.{◌≡◌, ◌↔◌, ℕ, ◌+◌, ◌*◌, ◌%◌, ◌^◌, ◌<◌, ◌≤◌, true, List, length, Some, slice_get};
ghost use Rattle.cxl_enc.specs.declared.caps.MemKind.{MemKind};
ghost use Rattle.cxl_enc.specs.Limits.{unit, address_limit};
ghost use Rattle.cxl_regs.specs.declared.decoder.Decoder.{Decoder};
ghost use Rattle.cxl_regs.specs.declared.reading.Range.{Range};
ghost use Rattle.cxl_regs.specs.Registers.{Registers, IsBlock};
ghost use Rattle.cxl_regs.specs.Reading.{decoder_ways, span_length, committed_count, holds_address, has_range};
ghost use Rattle.cxl_span.specs.Spans.{span_start_of, span_end_of, endpoint_place_of};
ghost use Rattle.cxl_span.specs.Partitions.{lies_in};
ghost use Rattle.cxl_span.specs.Breaches.{BlockKeeps};

/// A law of blocks: the committed decoders stand before all others, so the count of those before the
/// first other one tells which they are.
pub fn committed_stand_first()
    ensures before { (block : Registers) (ram pmem i j : ℕ) (d e : Decoder) → BlockKeeps block ram pmem
        → slice_get block.decoders i ≡ Some d → slice_get block.decoders j ≡ Some e
        → i < j → e.committed ≡ true → d.committed ≡ true }
    ensures counted { (block : Registers) (ram pmem i : ℕ) (d : Decoder) → BlockKeeps block ram pmem
        → slice_get block.decoders i ≡ Some d → (d.committed ≡ true) ↔ (i < committed_count block.decoders) }
{}

/// A law of blocks: the ranges of committed decoders rise, each with some bytes and an end of at most
/// `2^52`, so no two of them share an address.
pub fn ranges_rise()
    ensures apart { (block : Registers) (ram pmem i j : ℕ) (d e : Decoder) → BlockKeeps block ram pmem
        → slice_get block.decoders i ≡ Some d → slice_get block.decoders j ≡ Some e
        → i < j → e.committed ≡ true → d.base + d.size ≤ e.base }
    ensures some { (block : Registers) (ram pmem i : ℕ) (d : Decoder) → BlockKeeps block ram pmem
        → slice_get block.decoders i ≡ Some d → d.committed ≡ true → 0 < d.size }
    ensures ends { (block : Registers) (ram pmem i : ℕ) (d : Decoder) → BlockKeeps block ram pmem
        → slice_get block.decoders i ≡ Some d → d.committed ≡ true → d.base + d.size ≤ address_limit }
{}

/// A law of blocks: an address is held by one decoder at the most, and a range is that of one at the most.
pub fn one_holder()
    ensures address { (block : Registers) (ram pmem i j h : ℕ) (d e : Decoder) → BlockKeeps block ram pmem
        → slice_get block.decoders i ≡ Some d → slice_get block.decoders j ≡ Some e
        → holds_address d h ≡ true → holds_address e h ≡ true → i ≡ j }
    ensures range { (block : Registers) (ram pmem i j : ℕ) (r : Range) (d e : Decoder) → BlockKeeps block ram pmem
        → slice_get block.decoders i ≡ Some d → slice_get block.decoders j ≡ Some e
        → has_range r d ≡ true → has_range r e ≡ true → i ≡ j }
{}

/// A law of spans: each ends at or below the start of every later one, so no two share a byte.
pub fn spans_follow()
    ensures { (decoders : List Decoder) (i j : ℕ) → i < j → j < length decoders
        → span_end_of decoders i ≤ span_start_of decoders j }
{}

/// A law of spans: a committed decoder's lies in one partition of the endpoint's device.
pub fn spans_lie_in_partitions()
    ensures some { (block : Registers) (ram pmem i : ℕ) (d : Decoder) → BlockKeeps block ram pmem
        → block.endpoint ≡ true → slice_get block.decoders i ≡ Some d → d.committed ≡ true
        → (kind : MemKind)
        × (lies_in kind ram pmem (span_start_of block.decoders i) (span_length d) ≡ true) }
    ensures one { (kind other : MemKind) (ram pmem start len : ℕ) → 0 < len
        → lies_in kind ram pmem start len ≡ true → lies_in other ram pmem start len ≡ true
        → kind ≡ other }
    ensures ends { (block : Registers) (ram pmem i : ℕ) (d : Decoder) → BlockKeeps block ram pmem
        → block.endpoint ≡ true → slice_get block.decoders i ≡ Some d → d.committed ≡ true
        → span_start_of block.decoders i + span_length d ≤ ram + pmem }
{}

/// A law of spans: a committed decoder's of an endpoint has some bytes, as many for each way, and starts and
/// ends at multiples of 256 MiB.
pub fn spans_are_whole()
    ensures some { (block : Registers) (ram pmem i : ℕ) (d : Decoder) → BlockKeeps block ram pmem
        → block.endpoint ≡ true → slice_get block.decoders i ≡ Some d → d.committed ≡ true
        → 0 < span_length d }
    ensures shares { (block : Registers) (ram pmem i : ℕ) (d : Decoder) → BlockKeeps block ram pmem
        → block.endpoint ≡ true → slice_get block.decoders i ≡ Some d → d.committed ≡ true
        → span_length d * decoder_ways d ≡ d.size }
    ensures length_aligned { (block : Registers) (ram pmem i : ℕ) (d : Decoder) → BlockKeeps block ram pmem
        → block.endpoint ≡ true → slice_get block.decoders i ≡ Some d → d.committed ≡ true
        → span_length d % unit ≡ 0 }
    ensures start_aligned { (block : Registers) (ram pmem i : ℕ) (d : Decoder) → IsBlock block
        → BlockKeeps block ram pmem → block.endpoint ≡ true
        → slice_get block.decoders i ≡ Some d → d.committed ≡ true
        → span_start_of block.decoders i % unit ≡ 0 }
{}

/// A law of spans: a committed decoder of an endpoint sends each address of its range to a byte of its span.
pub fn addresses_go_into_spans()
    ensures from { (start h : ℕ) (d : Decoder) → start ≤ endpoint_place_of start d h }
    ensures below { (block : Registers) (ram pmem i h : ℕ) (d : Decoder) → IsBlock block
        → BlockKeeps block ram pmem → block.endpoint ≡ true
        → slice_get block.decoders i ≡ Some d → holds_address d h ≡ true
        → endpoint_place_of (span_start_of block.decoders i) d h < span_start_of block.decoders i + span_length d }
{}
