//! The span of a new decoder on an endpoint's device, or why it gets none.

ghost use Rattle.std.specs.Prelude.{◌≡◌, ◌+◌, ◌%◌, ◌^◌, ◌<◌, ◌≤◌, ◌⊎◌, ℕ, ◌↔◌, true, Result, IfOk, OnErr};
ghost use Rattle.cxl_enc.specs.Limits.{unit, address_limit};
ghost use Rattle.cxl_regs.specs.Registers.{IsBlock};
ghost use Rattle.cxl_regs.specs.Reading.{committed_count};
ghost use Rattle.cxl_span.specs.Partitions.{partition_start, partition_end};
ghost use Rattle.cxl_span.specs.Breaches.{BlockKeeps};
ghost use Rattle.cxl_span.specs.Allotting.{all_committed, cursor_of, CanStart, Allots};

use crate::spans::taken_before;
use cxl_enc::MemKind;
use cxl_regs::Block;

/// Bytes of an endpoint's device for a new decoder.
#[derive(Clone, Copy, PartialEq, Eq)]
pub struct Span {
    /// How many bytes lie between the last span and this one: the decoder's device address skip.
    pub skip: u64,
    /// The first device address.
    pub start: u64,
    /// How many bytes.
    pub len: u64,
}

/// Where a span would start, and where it would have to end.
#[derive(Clone, Copy, Debug, PartialEq, Eq)]
pub struct Room {
    pub start: u64,
    /// The first device address past the kind's partition.
    pub limit: u64,
}

/// Why an endpoint has no span to give.
#[derive(Clone, Copy, Debug, PartialEq, Eq)]
pub enum SpanFault {
    /// Every decoder is committed.
    NoDecoder,
    /// Ram is asked for, and the last span ends past it, at this device address.
    PastRam(u64),
    /// The span would end past its partition.
    NoRoom(Room),
}

/// The span of `len` bytes of the kind that the first uncommitted decoder of an endpoint can take: it
/// starts at the least device address that is at or after the end of the last committed span and in the
/// kind's partition. `ram` and `pmem` are the bytes of the endpoint's device. The faults are tried in the
/// order in which `SpanFault` lists them. (This project's rules.)
pub fn allot(block: &Block, ram: u64, pmem: u64, kind: MemKind, len: u64) -> Result<Span, SpanFault>
    requires endpoint { block.now.endpoint ≡ true }
    requires keeps { BlockKeeps block.now ram pmem }
    requires capacity { ram + pmem ≤ address_limit }
    requires short { len ≤ address_limit }
    // The answer is the one that the rules allow, and no other.
    ensures exact { (answer : Result Span SpanFault) → (result ≡ answer) ↔ Allots block.now.decoders ram pmem kind len answer }
    // It is refused only where no decoder is left or no span of this length can start.
    ensures refused { OnErr result ((all_committed block.now.decoders ≡ true)
        ⊎ ((start : ℕ) → CanStart block.now.decoders ram pmem kind len start → ⊥)) }
    // Where ram is a multiple of 256 MiB, so are start and skip.
    ensures aligned { ram % unit ≡ 0 → IfOk result (λ span. (span.start % unit ≡ 0) × (span.skip % unit ≡ 0)) }
{
    let committed = block.committed();
    if committed == block.count() {
        return Err(SpanFault::NoDecoder);
    }
    let cursor = cursor(block, committed, ram, pmem);
    if is_past_ram(kind, cursor, ram) {
        return Err(SpanFault::PastRam(cursor));
    }
    let start = cursor.max(partition_start(kind, ram));
    let limit = partition_end(kind, ram, pmem);
    if start + len > limit {
        return Err(SpanFault::NoRoom(Room { start, limit }));
    }
    Ok(Span {
        skip: start - cursor,
        start,
        len,
    })
}

/// The end of the last of so many committed spans.
fn cursor(block: &Block, committed: u8, ram: u64, pmem: u64) -> u64
    requires endpoint { block.now.endpoint ≡ true }
    requires keeps { BlockKeeps block.now ram pmem }
    requires capacity { ram + pmem ≤ address_limit }
    requires block { IsBlock block.now }
    requires counted { committed ≡ committed_count block.now.decoders }
    ensures value { result ≡ cursor_of block.now.decoders }
    ensures within { result ≤ address_limit }
    ensures aligned { result % unit ≡ 0 }
{
    taken_before(block, committed) as u64
}

/// Whether ram is asked for and the cursor stands past it.
fn is_past_ram(kind: MemKind, cursor: u64, ram: u64) -> bool
    ensures { (result ≡ true) ↔ ((kind ≡ MemKind.Ram) × (ram < cursor)) }
{
    match kind {
        MemKind::Ram => ram < cursor,
        MemKind::Pmem => false,
    }
}

fn partition_start(kind: MemKind, ram: u64) -> u64
    ensures { result ≡ partition_start kind ram }
{
    match kind {
        MemKind::Ram => 0,
        MemKind::Pmem => ram,
    }
}

fn partition_end(kind: MemKind, ram: u64, pmem: u64) -> u64
    requires { ram + pmem ≤ address_limit }
    ensures { result ≡ partition_end kind ram pmem }
{
    match kind {
        MemKind::Ram => ram,
        MemKind::Pmem => ram + pmem,
    }
}
