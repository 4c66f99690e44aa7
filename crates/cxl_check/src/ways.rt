//! K12: ways, kind and granularity.

ghost use Rattle.std.specs.Prelude.{◌≡◌, ◌+◌, ◌*◌, ◌<◌, ◌==◌, ◌&&◌, ◌||◌, true, length, if◌then◌else◌};
ghost use Rattle.cxl_enc.specs.Codes.{bits_of};
ghost use Rattle.cxl_regs.specs.Reading.{decoder_ways, range_of};
ghost use Rattle.cxl_topo.specs.Tree.{is_endpoint_at};
ghost use Rattle.cxl_model.specs.Hosts.{as_system};
ghost use Rattle.cxl_model.specs.System.{System};
ghost use Rattle.cxl_model.specs.Ranges.{ways_above, bits_above, span_kind, same_kind, range_ways, range_kind, range_code};
ghost use Rattle.cxl_model.specs.Rules.{keeps_endpoint_ways, keeps_port_code, keeps_ways};
ghost use Rattle.cxl_check.specs.inner.DecoderFacts.{AreDecoderFacts};
ghost use Rattle.cxl_check.specs.inner.Facts.{AreFacts};
ghost use Rattle.cxl_check.specs.inner.Known.{IsKnownAs};
ghost use Rattle.cxl_regs.specs.declared.reading.Range.{Range};

use crate::decoder_facts::{DecoderFacts, kind_of};
use crate::facts::RangeFacts;
use crate::known::{Known, window_of};
use cxl_enc::{MemKind, split};
use cxl_model::Host;
use cxl_regs::Decoder;
use cxl_window::Window;

/// K12 of a committed decoder: an endpoint has the ways that its path gives it, those, the kind and the code of the range;
/// a port has the code of its level.
pub(crate) fn keeps_ways(
    host: &Host,
    known: &Known,
    own: &DecoderFacts,
    node: u32,
    i: u8,
    d: &Decoder,
) -> bool
    requires known { IsKnownAs (as_system host.now) (range_of d.now) known.now }
    requires here { node < length host.now.topo.now.nodes }
    requires own { AreDecoderFacts (as_system host.now) node i d.now own.now }
    ensures { result ≡ keeps_ways (as_system host.now) node i d.now }
{
    let range = d.range();
    let Some(w) = window_of(host, &range, known) else {
        return true;
    };
    if host.topo.is_endpoint(node) {
        keeps_endpoint_ways(host, &known.facts, own, w, node, i, d)
    } else {
        keeps_port_code(host, &known.facts, own, w, node, i, d)
    }
}

/// An endpoint has the window's ways times those of the ports above it, and the ways and kind of the range; with more than
/// one way it has the range's code.
fn keeps_endpoint_ways(
    host: &Host,
    facts: &RangeFacts,
    own: &DecoderFacts,
    w: &Window,
    node: u32,
    i: u8,
    d: &Decoder,
) -> bool
    requires facts { AreFacts (as_system host.now) (record { base = d.now.base; size = d.now.size }) facts.now }
    requires endpoint { is_endpoint_at host.now.topo.now.nodes node ≡ true }
    requires own { AreDecoderFacts (as_system host.now) node i d.now own.now }
    ensures { result ≡ keeps_endpoint_ways (as_system host.now) w.now node i d.now }
{
    if !keeps_number(host, facts, own, w, node, i, d) {
        return false;
    }
    if !keeps_kind(host, facts, own, node, i, d) {
        return false;
    }
    keeps_code(facts, w, d)
}

/// A decoder has the ways that its path gives it, and those of the range.
fn keeps_number(
    host: &Host,
    facts: &RangeFacts,
    own: &DecoderFacts,
    w: &Window,
    node: u32,
    i: u8,
    d: &Decoder,
) -> bool
    requires own { AreDecoderFacts (as_system host.now) node i d.now own.now }
    ensures { (s : System) → AreFacts s (range_of d.now) facts.now
        → result ≡ ((decoder_ways d.now == w.now.ways * ways_above (as_system host.now) (range_of d.now) node)
        && (decoder_ways d.now == range_ways s (range_of d.now))) }
{
    keeps_path_ways(host, own, w, node, i, d) && d.interleave_ways() == facts.ways
}

/// The span of an endpoint's decoder is of the range's kind.
fn keeps_kind(
    host: &Host,
    facts: &RangeFacts,
    own: &DecoderFacts,
    node: u32,
    i: u8,
    d: &Decoder,
) -> bool
    requires facts { AreFacts (as_system host.now) (range_of d.now) facts.now }
    requires endpoint { is_endpoint_at host.now.topo.now.nodes node ≡ true }
    requires own { AreDecoderFacts (as_system host.now) node i d.now own.now }
    ensures { result ≡ same_kind (span_kind (as_system host.now) node i)
        (range_kind (as_system host.now) (range_of d.now)) }
{
    same_kind(kind_of(host, own, node, i, d), facts.kind)
}

/// A decoder has the window's ways times those of the ports above its node.
fn keeps_path_ways(
    host: &Host,
    own: &DecoderFacts,
    w: &Window,
    node: u32,
    i: u8,
    d: &Decoder,
) -> bool
    requires own { AreDecoderFacts (as_system host.now) node i d.now own.now }
    ensures { result ≡ (decoder_ways d.now
        == w.now.ways * ways_above (as_system host.now) (range_of d.now) node) }
{
    u32::from(d.interleave_ways()) == u32::from(w.ways()) * own.ways
}

fn same_kind(kind: MemKind, other: MemKind) -> bool
    ensures { result ≡ same_kind kind other }
{
    match (kind, other) {
        (MemKind::Ram, MemKind::Ram) | (MemKind::Pmem, MemKind::Pmem) => true,
        (MemKind::Ram, MemKind::Pmem) | (MemKind::Pmem, MemKind::Ram) => false,
    }
}

/// A decoder with more than one way has the range's code.
fn keeps_code(facts: &RangeFacts, w: &Window, d: &Decoder) -> bool
    ensures { (s : System) (r : Range) → AreFacts s r facts.now
        → result ≡ ((decoder_ways d.now == 1) || (d.now.gran == range_code s w.now r)) }
{
    d.interleave_ways() == 1 || d.gran == range_code(facts, w)
}

/// A port with more than one way has the range's code plus the k of the window and of each port above it.
fn keeps_port_code(
    host: &Host,
    facts: &RangeFacts,
    own: &DecoderFacts,
    w: &Window,
    node: u32,
    i: u8,
    d: &Decoder,
) -> bool
    requires facts { AreFacts (as_system host.now) (record { base = d.now.base; size = d.now.size }) facts.now }
    requires own { AreDecoderFacts (as_system host.now) node i d.now own.now }
    ensures { result ≡ keeps_port_code (as_system host.now) w.now node d.now }
{
    let level = port_level(host, facts, own, w, node, i, d);
    d.interleave_ways() == 1 || u32::from(d.gran) == level
}

/// The range's code plus the k of the window and of each port above a node.
fn port_level(
    host: &Host,
    facts: &RangeFacts,
    own: &DecoderFacts,
    w: &Window,
    node: u32,
    i: u8,
    d: &Decoder,
) -> u32
    requires own { AreDecoderFacts (as_system host.now) node i d.now own.now }
    ensures { (s : System) → AreFacts s (range_of d.now) facts.now → result
        ≡ range_code s w.now (range_of d.now) + bits_of w.now.ways + bits_above (as_system host.now) (range_of d.now) node }
{
    u32::from(range_code(facts, w)) + u32::from(split(w.ways()).bits) + u32::from(own.bits)
}

/// The code of a range's region: that of the range, and 0 at one way.
pub(crate) fn region_code(facts: &RangeFacts, w: &Window) -> u8
    ensures { (s : System) (r : Range) → AreFacts s r facts.now
        → result ≡ (if facts.now.ways == 1 then 0 else range_code s w.now r) }
{
    if facts.ways == 1 {
        0
    } else {
        range_code(facts, w)
    }
}

/// The code of a range: the window's where that has more than one way, else the first endpoint's.
fn range_code(facts: &RangeFacts, w: &Window) -> u8
    ensures { (s : System) (r : Range) → AreFacts s r facts.now → result ≡ range_code s w.now r }
{
    if w.ways() > 1 { w.gran() } else { facts.code }
}
