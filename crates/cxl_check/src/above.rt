//! The ports above a node.

ghost use Rattle.std.specs.Prelude.{◌≡◌, ◌+◌, ◌*◌, ◌<◌, ◌≤◌, ◌^◌, Some, length};
ghost use Rattle.cxl_model.specs.Hosts.{as_system};
ghost use Rattle.cxl_model.specs.Accepted.{IsOrderlySystem};
ghost use Rattle.cxl_model.specs.Ranges.{index_for, ways_above, bits_above};
ghost use Rattle.cxl_check.specs.inner.DecoderFacts.{AreFactsBefore, AreWithPort};

use crate::decoder_facts::DecoderFacts;
use crate::decoders::index_for;
use cxl_model::{Above, Host};
use cxl_regs::Range;
use cxl_topo::tree_laws;

/// The decoders of a range in the ports above a node, together: that of the nearest port that has one, with those above it.
pub(crate) fn ports_above(
    host: &Host,
    all: &[DecoderFacts],
    range: &Range,
    node: u32,
    likely: u8,
) -> Above
    requires ready { IsOrderlySystem (as_system host.now) }
    requires here { node < length host.now.topo.now.nodes }
    requires before { AreFactsBefore (as_system host.now) (10 * node) all.now }
    ensures ways { result.ways ≡ ways_above (as_system host.now) range.now node }
    ensures bits { result.bits ≡ bits_above (as_system host.now) range.now node }
    ensures few_ways { result.ways ≤ 2 ^ 20 }
    ensures few_bits { result.bits ≤ 20 }
{
    tree_laws();
    let _count = host.topo.count();
    let mut below = node;
    while let Some(parent) = host.topo.node(below).parent {
        if let Some(i) = index_for(host, range, parent.node, likely) {
            return with_port(host, all, range, parent.node, i);
        }
        below = parent.node;
    }
    Above { ways: 1, bits: 0 }
}

/// A port's decoder of the range with those in the ports above it, by what is worked out of it.
fn with_port(host: &Host, all: &[DecoderFacts], range: &Range, port: u32, i: u8) -> Above
    requires ready { IsOrderlySystem (as_system host.now) }
    requires here { port < length host.now.topo.now.nodes }
    requires index { index_for (as_system host.now) range.now port ≡ Some i }
    requires before { AreFactsBefore (as_system host.now) (10 * (port + 1)) all.now }
    ensures { AreWithPort (as_system host.now) range.now port result }
{
    let block = host.image.block(port);
    let _decoders = block.count();
    let d = block.decoder(i);
    let facts = all[10 * port as usize + usize::from(i)];
    Above {
        ways: u32::from(d.interleave_ways()) * facts.ways,
        bits: u32::from(d.select_bits()) + u32::from(facts.bits),
    }
}
