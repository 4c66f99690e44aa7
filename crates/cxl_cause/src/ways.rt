//! K12: why ways, kind or granularity do not follow from the range's window.

ghost use Rattle.std.specs.Prelude.{◌≡◌, ◌<◌, ◌==◌, ◌||◌, length, None, Some, if◌then◌else◌};
ghost use Rattle.cxl_regs.specs.Reading.{decoder_ways, range_of};
ghost use Rattle.cxl_model.specs.Hosts.{as_system};
ghost use Rattle.cxl_model.specs.System.{System, decoder_at};
ghost use Rattle.cxl_regs.specs.declared.reading.Range.{Range};
ghost use Rattle.cxl_model.specs.Ranges.{range_code, same_kind};
ghost use Rattle.cxl_cause.specs.RangeCauses.{code_cause, endpoint_cause, port_code, port_cause, ways_cause};
ghost use Rattle.cxl_cause.specs.inner.Firsts.{IsFirst};

use crate::cause::Cause;
use crate::firsts::{First, first_of};
use crate::lookups::{ports_above, span_kind, window_for};
use cxl_enc::{MemKind, split};
use cxl_model::Host;
use cxl_regs::{Decoder, Range};
use cxl_window::Window;

/// The cause of K12 at a committed decoder.
pub(crate) fn ways_cause(host: &Host, node: u32, i: u8, d: &Decoder) -> Option<Cause>
    requires here { node < length host.now.topo.now.nodes }
    requires there { decoder_at (as_system host.now) node i ≡ Some d.now }
    ensures { result ≡ ways_cause (as_system host.now) node i d.now }
{
    let range = d.range();
    let first = first_of(host, &range);
    match window_for(host.windows, &range) {
        None => None,
        Some(w) if host.topo.is_endpoint(node) => endpoint_cause(host, w, &first, node, i, d),
        Some(w) => port_cause(host, w, &first, node, d),
    }
}

/// An endpoint's: its ways, its kind, its code.
fn endpoint_cause(
    host: &Host,
    w: &Window,
    first: &First,
    node: u32,
    i: u8,
    d: &Decoder,
) -> Option<Cause>
    requires first { IsFirst (as_system host.now) (range_of d.now) first.now }
    requires here { node < length host.now.topo.now.nodes }
    requires there { decoder_at (as_system host.now) node i ≡ Some d.now }
    ensures { result ≡ endpoint_cause (as_system host.now) w.now node i d.now }
{
    let found = d.interleave_ways();
    let wanted = u32::from(w.ways()) * ports_above(host, &d.range(), node).ways;
    if u32::from(found) != wanted {
        return Some(Cause::Ways { found, wanted });
    }
    if found != first.ways {
        return Some(Cause::WaysOfFirst {
            found,
            wanted: first.ways,
            first: first.node,
        });
    }
    let kind = span_kind(host, node, i, d);
    if !same_kind(kind, first.kind) {
        return Some(Cause::KindOfFirst {
            found: kind,
            wanted: first.kind,
            first: first.node,
        });
    }
    code_cause(host, w, first, d)
}

fn same_kind(kind: MemKind, other: MemKind) -> bool
    ensures { result ≡ same_kind kind other }
{
    match (kind, other) {
        (MemKind::Ram, MemKind::Ram) | (MemKind::Pmem, MemKind::Pmem) => true,
        (MemKind::Ram, MemKind::Pmem) | (MemKind::Pmem, MemKind::Ram) => false,
    }
}

/// That of an endpoint's code.
fn code_cause(host: &Host, w: &Window, first: &First, d: &Decoder) -> Option<Cause>
    requires { IsFirst (as_system host.now) (range_of d.now) first.now }
    ensures { result ≡ code_cause (as_system host.now) w.now d.now }
{
    told_code(d, first, u32::from(range_code(w, first)))
}

/// That of a port's code.
fn port_cause(host: &Host, w: &Window, first: &First, node: u32, d: &Decoder) -> Option<Cause>
    requires first { IsFirst (as_system host.now) (range_of d.now) first.now }
    requires here { node < length host.now.topo.now.nodes }
    ensures { result ≡ port_cause (as_system host.now) w.now node d.now }
{
    told_code(d, first, port_level(host, w, first, node, &d.range()))
}

/// The range's code plus the k of the window and of each port above a node.
fn port_level(host: &Host, w: &Window, first: &First, node: u32, range: &Range) -> u32
    requires first { IsFirst (as_system host.now) range.now first.now }
    requires here { node < length host.now.topo.now.nodes }
    ensures { result ≡ port_code (as_system host.now) w.now node range.now }
{
    let above = ports_above(host, range, node);
    u32::from(range_code(w, first)) + u32::from(split(w.ways()).bits) + above.bits
}

/// The cause of a decoder with more than one way that has another code than this.
fn told_code(d: &Decoder, first: &First, wanted: u32) -> Option<Cause>
    ensures { result ≡ (if (decoder_ways d.now == 1) || (d.now.gran == wanted) then None
        else Some (Cause.Granularity d.now.gran wanted first.now.node)) }
{
    if d.interleave_ways() == 1 {
        return None;
    }
    if u32::from(d.gran) == wanted {
        return None;
    }
    Some(Cause::Granularity {
        found: d.gran,
        wanted,
        first: first.node,
    })
}

/// The code of a range: the window's where that has more than one way, else the first endpoint's.
fn range_code(w: &Window, first: &First) -> u8
    ensures { (s : System) (r : Range) → IsFirst s r first.now → result ≡ range_code s w.now r }
{
    if w.ways() > 1 { w.gran() } else { first.code }
}
