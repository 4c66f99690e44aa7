//! Of which kind of memory a span is.

ghost use Rattle.std.specs.Prelude.{◌≡◌, ◌+◌, ◌<◌, true, length};
ghost use Rattle.cxl_topo.specs.Tree.{is_endpoint_at};
ghost use Rattle.cxl_regs.specs.Reading.{span_length};
ghost use Rattle.cxl_span.specs.Spans.{span_start_of};
ghost use Rattle.cxl_model.specs.Hosts.{as_system};
ghost use Rattle.cxl_model.specs.System.{decoders_at, ram_at, pmem_at};
ghost use Rattle.cxl_model.specs.Ranges.{span_kind};
ghost use Rattle.cxl_model.specs.Accepted.{IsOrderlySystem};
ghost use Rattle.cxl_check.specs.inner.DecoderFacts.{IsTaken, IsSpanOfDecoder};
ghost use Rattle.cxl_check.specs.inner.Ready.{IsCommitted};

use cxl_enc::MemKind;
use cxl_model::Host;
use cxl_regs::Decoder;
use cxl_span::spans_lie_in_partitions;
use cxl_topo::Capacity;

/// Where the span of an endpoint's decoder starts and ends, and of which kind of memory it is; a port's has none.
#[derive(Clone, Copy)]
pub struct DeviceSpan {
    pub start: u64,
    pub end: u64,
    pub kind: MemKind,
}

/// The span of a committed decoder, where those before it skip and take so many bytes of a device of this capacity.
pub(crate) fn span_behind(
    host: &Host,
    node: u32,
    i: u8,
    d: &Decoder,
    capacity: &Capacity,
    taken: u64,
) -> DeviceSpan
    requires ready { IsOrderlySystem (as_system host.now) }
    requires here { node < length host.now.topo.now.nodes }
    requires committed { IsCommitted (as_system host.now) node i d.now }
    requires ram { capacity.now.ram ≡ ram_at (as_system host.now) node }
    requires pmem { capacity.now.pmem ≡ pmem_at (as_system host.now) node }
    requires taken { IsTaken (as_system host.now) node i taken }
    ensures { IsSpanOfDecoder (as_system host.now) node i result }
{
    spans_lie_in_partitions();
    if !host.topo.is_endpoint(node) {
        return DeviceSpan {
            start: 0,
            end: 0,
            kind: MemKind::Ram,
        };
    }
    let start = taken + d.tail;
    let end = start + d.span_length();
    let kind = kind_by_end(host, node, i, d, capacity, end);
    DeviceSpan { start, end, kind }
}

/// The kind of memory of the span of an endpoint's committed decoder, by where that ends on a device of this capacity.
fn kind_by_end(host: &Host, node: u32, i: u8, d: &Decoder, capacity: &Capacity, end: u64) -> MemKind
    requires ready { IsOrderlySystem (as_system host.now) }
    requires endpoint { is_endpoint_at host.now.topo.now.nodes node ≡ true }
    requires committed { IsCommitted (as_system host.now) node i d.now }
    requires ram { capacity.now.ram ≡ ram_at (as_system host.now) node }
    requires pmem { capacity.now.pmem ≡ pmem_at (as_system host.now) node }
    requires end { end ≡ span_start_of (decoders_at (as_system host.now) node) i + span_length d.now }
    ensures { result ≡ span_kind (as_system host.now) node i }
{
    spans_lie_in_partitions();
    if capacity.pmem == 0 {
        return MemKind::Ram;
    }
    if end <= capacity.ram {
        MemKind::Ram
    } else {
        MemKind::Pmem
    }
}
