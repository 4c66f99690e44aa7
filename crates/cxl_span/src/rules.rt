//! The rules K2 to K8 at one decoder.

ghost use Rattle.std.specs.Prelude.{◌≡◌, ◌^◌, ◌<◌, true};
ghost use Rattle.cxl_regs.specs.Reading.{span_length};
ghost use Rattle.cxl_span.specs.Partitions.{lies_in};
ghost use Rattle.cxl_span.specs.Rules.{breaks_commit_order, breaks_flags, breaks_codes, breaks_select, breaks_size, breaks_base_order, breaks_capacity};
ghost use Rattle.cxl_span.specs.inner.Least.{least_rule};

use cxl_enc::{ADDRESS_LIMIT, MemKind, UNIT};
use cxl_regs::{Block, Decoder, breaks_order, breaks_rise, codes_ok, select_ok};

/// The least rule, from 2 to 8 for K2 to K8, that a decoder breaks with this one before it and with a span of so many bytes
/// that starts there; a port's has no span.
pub(crate) fn least_rule(
    block: &Block,
    ram: u64,
    pmem: u64,
    below: Option<Decoder>,
    start: u128,
    len: u64,
    d: &Decoder,
) -> Option<u8>
    requires start { start < 2 ^ 100 }
    requires len { block.now.endpoint ≡ true → len ≡ span_length d.now }
    ensures { result ≡ least_rule block.now ram pmem below start d.now }
{
    if breaks_commit_order(block, below, d) {
        return Some(2);
    }
    if breaks_flags(d) {
        return Some(3);
    }
    if breaks_codes(block, d) {
        return Some(4);
    }
    if breaks_select(block, d) {
        return Some(5);
    }
    if breaks_size(block, d) {
        return Some(6);
    }
    if breaks_base_order(below, d) {
        return Some(7);
    }
    if breaks_capacity_with(block, ram, pmem, start, len, d) {
        return Some(8);
    }
    None
}

pub(crate) fn breaks_commit_order(block: &Block, below: Option<Decoder>, d: &Decoder) -> bool
    ensures { result ≡ breaks_commit_order block.now below d.now }
{
    d.committed && (breaks_order(below) || !block.enabled())
}

pub(crate) fn breaks_flags(d: &Decoder) -> bool
    ensures { result ≡ breaks_flags d.now }
{
    d.error
        || if d.committed {
            !(d.commit && d.host_only)
        } else {
            d.commit
        }
}

pub(crate) fn breaks_codes(block: &Block, d: &Decoder) -> bool
    ensures { result ≡ breaks_codes block.now d.now }
{
    d.committed && !codes_ok(block.cap(), block.endpoint(), d)
}

pub(crate) fn breaks_select(block: &Block, d: &Decoder) -> bool
    ensures { result ≡ breaks_select block.now d.now }
{
    d.committed && !select_ok(block.cap(), d.gran, d.select_bits())
}

pub(crate) fn breaks_size(block: &Block, d: &Decoder) -> bool
    ensures { result ≡ breaks_size block.now d.now }
{
    d.committed
        && (d.size == 0
            || u128::from(d.base) + u128::from(d.size) > u128::from(ADDRESS_LIMIT)
            || (block.endpoint() && d.size % (UNIT * u64::from(d.interleave_ways())) != 0))
}

pub(crate) fn breaks_base_order(below: Option<Decoder>, d: &Decoder) -> bool
    ensures { result ≡ breaks_base_order below d.now }
{
    d.committed && breaks_rise(below, d)
}

pub(crate) fn breaks_capacity(block: &Block, ram: u64, pmem: u64, start: u128, d: &Decoder) -> bool
    requires { start < 2 ^ 100 }
    ensures { result ≡ breaks_capacity block.now ram pmem start d.now }
{
    breaks_capacity_with(block, ram, pmem, start, d.span_length(), d)
}

/// The same by how many bytes the span has.
fn breaks_capacity_with(
    block: &Block,
    ram: u64,
    pmem: u64,
    start: u128,
    len: u64,
    d: &Decoder,
) -> bool
    requires start { start < 2 ^ 100 }
    requires len { block.now.endpoint ≡ true → len ≡ span_length d.now }
    ensures { result ≡ breaks_capacity block.now ram pmem start d.now }
{
    block.endpoint()
        && d.committed
        && !(lies_in(MemKind::Ram, ram, pmem, start, len)
            || lies_in(MemKind::Pmem, ram, pmem, start, len))
}

/// Whether so many bytes from the start on lie in the kind's partition of a device.
pub(crate) fn lies_in(kind: MemKind, ram: u64, pmem: u64, start: u128, len: u64) -> bool
    requires { start < 2 ^ 100 }
    ensures { result ≡ lies_in kind ram pmem start len }
{
    let ram = u128::from(ram);
    let end = start + u128::from(len);
    match kind {
        MemKind::Ram => end <= ram,
        MemKind::Pmem => ram <= start && end <= ram + u128::from(pmem),
    }
}
