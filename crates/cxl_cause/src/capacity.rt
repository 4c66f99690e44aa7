//! K8: why a span lies in no partition of its device.

ghost use Rattle.std.specs.Prelude.{◌≡◌, ◌+◌, ◌/◌, ◌^◌, ◌<◌, ◌≤◌, length, slice_get, Some, find};
ghost use Rattle.cxl_enc.specs.Limits.{address_limit};
ghost use Rattle.cxl_regs.specs.Reading.{span_length};
ghost use Rattle.cxl_span.specs.Spans.{span_start_of};
ghost use Rattle.cxl_regs.specs.declared.decoder.Decoder.{Decoder};
ghost use Rattle.cxl_cause.specs.BlockCauses.{all_ways, fits_device, span_cause, capacity_cause};

use crate::cause::Cause;
use crate::lookups::span_start;
use cxl_regs::{Block, Decoder};
use cxl_topo::Capacity;

/// The cause of K8 at decoder `i` of a block on a device of this capacity.
pub(crate) fn capacity_cause(block: &Block, capacity: &Capacity, i: u8) -> Option<Cause>
    requires here { i < length block.now.decoders }
    requires small { capacity.now.ram + capacity.now.pmem ≤ address_limit }
    ensures { (d : Decoder) → slice_get block.now.decoders i ≡ Some d
        → result ≡ capacity_cause block.now capacity.now.ram capacity.now.pmem (span_start_of block.now.decoders i) d }
{
    let d = block.decoder(i);
    if !block.endpoint() || !d.committed {
        return None;
    }
    let start = span_start(block, i);
    if fits_device(capacity, start, d.span_length()) {
        return None;
    }
    Some(span_cause(capacity, start, &d))
}

/// Whether so many bytes from a device address on lie in one of the partitions.
fn fits_device(capacity: &Capacity, start: u128, len: u64) -> bool
    requires { start < 2 ^ 100 }
    ensures { result ≡ fits_device capacity.now.ram capacity.now.pmem start len }
{
    let ram = u128::from(capacity.ram);
    let end = start + u128::from(len);
    end <= ram || (ram <= start && end <= ram + u128::from(capacity.pmem))
}

/// Where a span stands that fits in no partition.
fn span_cause(capacity: &Capacity, start: u128, d: &Decoder) -> Cause
    requires start { start < 2 ^ 100 }
    requires small { capacity.now.ram + capacity.now.pmem ≤ address_limit }
    ensures { result ≡ span_cause capacity.now.ram capacity.now.pmem start d.now }
{
    let len = d.span_length();
    let fitting = fitting_ways(capacity, start, d.size);
    if capacity.pmem == 0 {
        return Cause::PastRam {
            start,
            len,
            end: capacity.ram,
            fitting,
        };
    }
    if start < u128::from(capacity.ram) {
        return Cause::AcrossPartitions {
            start,
            len,
            end: capacity.ram,
            fitting,
        };
    }
    Cause::PastPmem {
        start,
        len,
        end: capacity.ram + capacity.pmem,
        fitting,
    }
}

/// The numbers of ways that there are.
const ALL_WAYS: [u8; 8] = [1, 2, 3, 4, 6, 8, 12, 16];

/// The least ways at which a share of so many bytes would fit.
fn fitting_ways(capacity: &Capacity, start: u128, size: u64) -> Option<u8>
    requires { start < 2 ^ 100 }
    ensures { result ≡ find (λ ways. fits_device capacity.now.ram capacity.now.pmem start (size / ways)) all_ways }
{
    for ways in ALL_WAYS {
        if fits_device(capacity, start, size / u64::from(ways)) {
            return Some(ways);
        }
    }
    None
}
