//! The first endpoint of each range.

ghost use Rattle.std.specs.Prelude.{◌≡◌, ◌+◌, ◌<◌, [], true, length, None, Some, IsSome, OnOk, IfOk, if◌then◌else◌};
ghost use Rattle.std.specs.List.{list_any};
ghost use Rattle.std.specs.Option.{option_or};
ghost use Rattle.std.specs.BTreeMap.{get};
ghost use Rattle.cxl_check.specs.declared.firsts.RangeKey.{RangeKey};
ghost use Rattle.cxl_regs.specs.Reading.{has_range, range_of};
ghost use Rattle.cxl_model.specs.Hosts.{as_system};
ghost use Rattle.cxl_check.specs.inner.Firsts.{key_cmp, range_at, first_below, ListsFirsts};

use cxl_model::Host;
use cxl_regs::{Block, Decoder, Range};
use cxl_topo::{Topo, enter_first};
use std::alloc::{AllocError, Global};
use std::collections::BTreeMap;

/// A range as the key of a table: by base, then by size.
#[derive(Clone, Copy, PartialEq, Eq, PartialOrd, Ord)]
pub struct RangeKey {
    pub base: u64,
    pub size: u64,
}

/// The endpoint that a table has for a range.
pub fn first_of(firsts: &BTreeMap<RangeKey, u32>, range: &Range) -> Option<u32>
    ensures { result ≡ get key_cmp firsts.now (record { base = range.now.base; size = range.now.size }) }
{
    let key = RangeKey {
        base: range.base,
        size: range.size,
    };
    firsts.get(&key).copied()
}

/// The first endpoint of each committed range that has one. Takes memory.
pub fn first_endpoints(alloc: Global, host: &Host) -> Result<BTreeMap<RangeKey, u32>, AllocError>
    ensures { IfOk result
        (λ firsts. ListsFirsts (as_system host.now) (length host.now.topo.now.nodes) firsts) }
{
    let mut firsts = BTreeMap::new(alloc);
    for node in 0..host.topo.count() {
        enter_node(&mut firsts, host, node)?;
    }
    Ok(firsts)
}

/// Enters a node, where it is an endpoint, under the range of each of its committed decoders.
fn enter_node(
    firsts: &mut BTreeMap<RangeKey, u32>,
    host: &Host,
    node: u32,
) -> Result<(), AllocError>
    requires here { node < length host.now.topo.now.nodes }
    requires listed { ListsFirsts (as_system host.now) node firsts.old }
    ensures { OnOk result (ListsFirsts (as_system host.now) (node + 1) firsts.new) }
{
    if !host.topo.is_endpoint(node) || node >= host.image.count() {
        return Ok(());
    }
    enter_ranges(firsts, host, host.image.block(node), node)
}

/// Enters a node under the range of each committed decoder of its block.
fn enter_ranges(
    firsts: &mut BTreeMap<RangeKey, u32>,
    host: &Host,
    block: &Block,
    node: u32,
) -> Result<(), AllocError>
    requires here { node < length host.now.topo.now.nodes }
    requires listed { ListsFirsts (as_system host.now) node firsts.old }
    ensures { OnOk result ((key : RangeKey) → get key_cmp firsts.new key ≡ option_or (get key_cmp firsts.old key)
        (if list_any (has_range (range_at key)) block.now.decoders then Some node else None)) }
{
    for i in 0..block.count() {
        let d = block.decoder(i);
        if !has_earlier(host, node, i, &d) {
            enter_range(firsts, &d, node)?;
        }
    }
    Ok(())
}

/// Whether the node before is an endpoint whose decoder of this number has the range of this one, so that the range is
/// in the table. It mostly is, and a look here costs less than one into the table.
fn has_earlier(host: &Host, node: u32, i: u8, d: &Decoder) -> bool
    requires { node < length host.now.topo.now.nodes }
    ensures { result ≡ true → IsSome (first_below (as_system host.now) node (range_of d.now)) }
{
    if node == 0 {
        return false;
    }
    let before = node - 1;
    if !host.topo.is_endpoint(before) || before >= host.image.count() {
        return false;
    }
    let block = host.image.block(before);
    i < block.count() && block.decoder(i).has_range(&d.range())
}

/// Enters a node under the range of a decoder that is committed, unless the range has an earlier node.
fn enter_range(
    firsts: &mut BTreeMap<RangeKey, u32>,
    d: &Decoder,
    node: u32,
) -> Result<(), AllocError>
    ensures { OnOk result ((key : RangeKey) → get key_cmp firsts.new key ≡ option_or (get key_cmp firsts.old key)
        (if has_range (range_at key) d.now then Some node else None)) }
{
    if !d.committed {
        return Ok(());
    }
    let key = RangeKey {
        base: d.base,
        size: d.size,
    };
    enter_first(firsts, key, node)
}
