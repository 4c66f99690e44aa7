//! What is worked out once of each committed decoder: what the ports above its node come to for its range, from what those
//! above its parent do, and where an endpoint's span starts and of which kind it is.

ghost use Rattle.std.specs.Prelude.{◌≡◌, ◌+◌, ◌*◌, ◌^◌, ◌<◌, ◌≤◌, true, Some, length, IfOk};
ghost use Rattle.cxl_topo.specs.Tree.{is_endpoint_at};
ghost use Rattle.cxl_regs.specs.Reading.{range_of};
ghost use Rattle.cxl_span.specs.Spans.{span_start_of};
ghost use Rattle.cxl_model.specs.Hosts.{as_system};
ghost use Rattle.cxl_model.specs.Accepted.{IsOrderlySystem};
ghost use Rattle.cxl_model.specs.Ranges.{span_kind};
ghost use Rattle.cxl_model.specs.System.{decoders_at, decoder_at};
ghost use Rattle.cxl_check.specs.inner.DecoderFacts.{AreDecoderFacts, AreFactsBefore, AreAllFacts, IsSpanOfDecoder};
ghost use Rattle.cxl_check.specs.inner.Ready.{IsCommitted};

use crate::above::ports_above;
use crate::kind::{DeviceSpan, span_behind};
use cxl_enc::MemKind;
use cxl_model::Host;
use cxl_regs::Decoder;
use cxl_span::committed_stand_first;
use cxl_topo::capacity_at;
use std::alloc::{AllocError, Global};

/// What is worked out of a committed decoder.
#[derive(Clone, Copy)]
pub struct DecoderFacts {
    /// The device address at which an endpoint's span starts.
    pub start: u64,
    /// The ways of the decoders of the range in the ports above, multiplied.
    pub ways: u32,
    /// How many address bits those select on.
    pub bits: u8,
    /// Of which kind of memory an endpoint's span is.
    pub kind: MemKind,
}

const NONE: DecoderFacts = DecoderFacts {
    start: 0,
    ways: 1,
    bits: 0,
    kind: MemKind::Ram,
};

/// What is worked out of all committed decoders: of decoder i of node n at place 10 * n + i. Takes memory.
pub(crate) fn all_decoder_facts(alloc: Global, host: &Host) -> Result<Vec<DecoderFacts>, AllocError>
    requires ready { IsOrderlySystem (as_system host.now) }
    ensures { IfOk result (λ all. AreAllFacts (as_system host.now) all.items) }
{
    let count = 10 * host.topo.count();
    let mut all = vec![in alloc; NONE; count as usize]?;
    for node in 0..host.topo.count() {
        enter_node(&mut all, host, node);
    }
    Ok(all)
}

/// Enters what is worked out of a node's committed decoders, which stand before the others. A parent stands before its
/// children, so its own are entered. Each span starts past all that those before it skip and take.
fn enter_node(all: &mut Vec<DecoderFacts>, host: &Host, node: u32)
    requires ready { IsOrderlySystem (as_system host.now) }
    requires here { node < length host.now.topo.now.nodes }
    requires before { AreFactsBefore (as_system host.now) (10 * node) all.old.items }
    ensures { AreFactsBefore (as_system host.now) (10 * (node + 1)) all.new.items }
{
    committed_stand_first();
    let block = host.image.block(node);
    let capacity = capacity_at(host.topo, node);
    let mut taken = 0;
    for i in 0..block.count() {
        let d = block.decoder(i);
        if !d.committed {
            return;
        }
        let span = span_behind(host, node, i, &d, &capacity, taken);
        enter_decoder(all, host, node, i, &d, &span);
        taken = span.end;
    }
}

/// Enters what is worked out of a committed decoder, from what is of those of nodes before, and its span.
fn enter_decoder(
    all: &mut Vec<DecoderFacts>,
    host: &Host,
    node: u32,
    i: u8,
    d: &Decoder,
    span: &DeviceSpan,
)
    requires ready { IsOrderlySystem (as_system host.now) }
    requires here { node < length host.now.topo.now.nodes }
    requires few { i < 10 }
    requires committed { IsCommitted (as_system host.now) node i d.now }
    requires span { IsSpanOfDecoder (as_system host.now) node i span.now }
    requires before { AreFactsBefore (as_system host.now) (10 * node + i) all.old.items }
    ensures { AreFactsBefore (as_system host.now) (10 * node + (i + 1)) all.new.items }
{
    let above = ports_above(host, all, &d.range(), node, i);
    let facts = DecoderFacts {
        start: span.start,
        ways: above.ways,
        bits: above.bits as u8,
        kind: span.kind,
    };
    all[10 * node as usize + usize::from(i)] = facts;
}

/// What is worked out of a committed decoder, from the table.
pub(crate) fn facts_at(
    host: &Host,
    all: &[DecoderFacts],
    node: u32,
    i: u8,
    d: &Decoder,
) -> DecoderFacts
    requires here { node < length host.now.topo.now.nodes }
    requires committed { IsCommitted (as_system host.now) node i d.now }
    requires all { AreAllFacts (as_system host.now) all.now }
    ensures { AreDecoderFacts (as_system host.now) node i d.now result }
{
    let _decoders = host.image.block(node).count();
    all[10 * node as usize + usize::from(i)]
}

/// Of which kind the span of an endpoint's committed decoder is, by what is worked out of it.
pub(crate) fn kind_of(host: &Host, facts: &DecoderFacts, node: u32, i: u8, d: &Decoder) -> MemKind
    requires facts { AreDecoderFacts (as_system host.now) node i d.now facts.now }
    requires endpoint { is_endpoint_at host.now.topo.now.nodes node ≡ true }
    ensures { result ≡ span_kind (as_system host.now) node i }
{
    facts.kind
}

/// The device address at which that span starts.
pub(crate) fn start_of(host: &Host, facts: &DecoderFacts, node: u32, i: u8, d: &Decoder) -> u64
    requires facts { AreDecoderFacts (as_system host.now) node i d.now facts.now }
    requires endpoint { is_endpoint_at host.now.topo.now.nodes node ≡ true }
    ensures { result ≡ span_start_of (decoders_at (as_system host.now) node) i }
{
    facts.start
}
