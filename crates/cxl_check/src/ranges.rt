//! K9 to K12: what is asked of the range of each committed decoder.

ghost use Rattle.std.specs.Prelude.{◌≡◌, ◌<◌, Some, length, All, IfSome, IfNone};
ghost use Rattle.cxl_model.specs.Hosts.{as_system};
ghost use Rattle.cxl_model.specs.System.{decoder_at};
ghost use Rattle.cxl_model.specs.Accepted.{breaks, IsAccepted, IsFirstBreach, IsOrderlySystem};
ghost use Rattle.cxl_check.specs.inner.Ready.{IsCommitted};
ghost use Rattle.cxl_regs.specs.Reading.{range_of};
ghost use Rattle.cxl_check.specs.inner.DecoderFacts.{AreDecoderFacts};
ghost use Rattle.cxl_check.specs.inner.Facts.{AreSystemTables, keeps_rule};
ghost use Rattle.cxl_check.specs.inner.Found.{IsLeastBrokenAt, IsFoundOfNode};
ghost use Rattle.cxl_check.specs.inner.Known.{IsKnown, IsKnownAs};

use crate::decoder_facts::{DecoderFacts, facts_at};
use crate::fault::Breach;
use crate::known::{Known, known_of};
use crate::least::{earlier_among_nodes, earlier_in_node};
use crate::reach::keeps_reach;
use crate::tables::Tables;
use crate::targets::keeps_targets;
use crate::ways::keeps_ways;
use crate::window::keeps_window;
use cxl_model::Host;
use cxl_regs::Decoder;
use cxl_span::BlockBreach;

/// The first breach of K9 to K12. Each decoder is looked at once, for all four rules.
pub(crate) fn ranges_breach(met: &mut Vec<Known>, host: &Host, tables: &Tables) -> Option<Breach>
    requires met { All (IsKnown (as_system host.now)) met.old.items }
    requires ready { IsOrderlySystem (as_system host.now) }
    requires tables { AreSystemTables (as_system host.now) tables.now }
    ensures met { All (IsKnown (as_system host.now)) met.new.items }
    ensures none { IfNone result (IsAccepted (as_system host.now)) }
    ensures first { IfSome result
        (λ b. IsFirstBreach (as_system host.now) b.rule b.node b.decoder) }
{
    let mut first = None;
    for node in 0..host.topo.count() {
        let found = node_breach(met, host, tables, node);
        first = earlier_among_nodes(first, node, found);
    }
    first
}

/// The first breach of K9 to K12 in the block of one node.
fn node_breach(met: &mut Vec<Known>, host: &Host, tables: &Tables, node: u32) -> Option<BlockBreach>
    requires met { All (IsKnown (as_system host.now)) met.old.items }
    requires ready { IsOrderlySystem (as_system host.now) }
    requires tables { AreSystemTables (as_system host.now) tables.now }
    requires here { node < length host.now.topo.now.nodes }
    ensures met { All (IsKnown (as_system host.now)) met.new.items }
    ensures found { IsFoundOfNode (breaks (as_system host.now)) node result }
{
    let block = host.image.block(node);
    let mut first = None;
    for i in 0..block.count() {
        let rule = least_broken(met, host, tables, node, i, &block.decoder(i));
        first = earlier_in_node(first, i, rule);
    }
    first
}

/// The least of the rules K9 to K12 that a decoder breaks.
pub(crate) fn least_broken(
    met: &mut Vec<Known>,
    host: &Host,
    tables: &Tables,
    node: u32,
    i: u8,
    d: &Decoder,
) -> Option<u8>
    requires met { All (IsKnown (as_system host.now)) met.old.items }
    requires ready { IsOrderlySystem (as_system host.now) }
    requires tables { AreSystemTables (as_system host.now) tables.now }
    requires here { node < length host.now.topo.now.nodes }
    requires there { decoder_at (as_system host.now) node i ≡ Some d.now }
    ensures met { All (IsKnown (as_system host.now)) met.new.items }
    ensures least { IsLeastBrokenAt (breaks (as_system host.now)) node i result }
{
    if !d.committed {
        return None;
    }
    let known = known_of(met, host, tables, &d.range());
    let facts = facts_at(host, &tables.decoders, node, i, d);
    broken_rule(host, &known, &facts, tables, node, i, d)
}

/// The same of a committed decoder, by what is known of its range and worked out of itself.
fn broken_rule(
    host: &Host,
    known: &Known,
    facts: &DecoderFacts,
    tables: &Tables,
    node: u32,
    i: u8,
    d: &Decoder,
) -> Option<u8>
    requires ready { IsOrderlySystem (as_system host.now) }
    requires known { IsKnownAs (as_system host.now) (range_of d.now) known.now }
    requires tables { AreSystemTables (as_system host.now) tables.now }
    requires here { node < length host.now.topo.now.nodes }
    requires committed { IsCommitted (as_system host.now) node i d.now }
    requires facts { AreDecoderFacts (as_system host.now) node i d.now facts.now }
    ensures { IsLeastBrokenAt (breaks (as_system host.now)) node i result }
{
    if !keeps_window(host, known, facts, node, i, d) {
        return Some(9);
    }
    if !keeps_targets(host, known, tables, node, i, d) {
        return Some(10);
    }
    if !keeps_reach(host, known, node, i, d) {
        return Some(11);
    }
    if !keeps_ways(host, known, facts, node, i, d) {
        return Some(12);
    }
    None
}
