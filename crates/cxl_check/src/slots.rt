//! The span of each slot of a region.

ghost use Rattle.std.specs.Prelude.{◌≡◌, ◌*◌, ◌/◌, ◌%◌, ◌^◌, ◌<◌, ◌≤◌, [], length};
ghost use Rattle.std.specs.Option.{option_map_or};
ghost use Rattle.cxl_enc.specs.Codes.{bits_of};
ghost use Rattle.cxl_topo.specs.Tree.{bridge_with};
ghost use Rattle.cxl_regs.specs.Reading.{decoder_ways};
ghost use Rattle.cxl_model.specs.declared.found.Place.{Place};
ghost use Rattle.cxl_model.specs.Hosts.{as_system};
ghost use Rattle.cxl_model.specs.Ranges.{decoder_for};
ghost use Rattle.cxl_model.specs.Regions.{LeadsTo, HasSpan};
ghost use Rattle.cxl_model.specs.Accepted.{IsOrderlySystem};
ghost use Rattle.cxl_check.specs.inner.Children.{AreAllChildren};
ghost use Rattle.cxl_check.specs.inner.DecoderFacts.{AreAllFacts};
ghost use Rattle.cxl_check.specs.inner.Slots.{AreRootWays, AreWaysAbove, child_of_slot, next_of};

use crate::children::child_at;
use crate::decoder_facts::{DecoderFacts, facts_at, start_of};
use crate::decoders::{decoder_for, index_for};
use cxl_model::{Host, Place};
use cxl_regs::{Decoder, Range};
use cxl_topo::{Topo, tree_laws};
use cxl_window::{Window, target_position};

/// The bridge with a UID, where there is one.
#[derive(Clone, Copy)]
pub struct Target {
    pub uid: u32,
    pub bridge: Option<u32>,
}

/// The bridge that is a window's first target, which is its only one in most windows.
pub(crate) fn first_target(topo: &Topo, w: &Window) -> Target
    ensures { result.bridge ≡ bridge_with topo.now.nodes result.uid }
{
    let uid = w.targets().first().copied().unwrap_or(0);
    Target {
        uid,
        bridge: topo.bridge(uid),
    }
}

/// The bridge with a UID, by the first target where it is that one's.
fn target_with(topo: &Topo, first: &Target, uid: u32) -> Option<u32>
    requires { first.now.bridge ≡ bridge_with topo.now.nodes first.now.uid }
    ensures { result ≡ bridge_with topo.now.nodes uid }
{
    if uid == first.uid {
        first.bridge
    } else {
        topo.bridge(uid)
    }
}

/// The span of a slot that has one, from the window's target down.
pub(crate) fn place_of_slot(
    host: &Host,
    children: &[Option<u32>],
    all: &[DecoderFacts],
    range: &Range,
    w: &Window,
    root: u32,
    first: &Target,
    slot: u8,
    likely: u8,
) -> Place
    requires ready { IsOrderlySystem (as_system host.now) }
    requires children { AreAllChildren host.now.topo.now.nodes children.now }
    requires all { AreAllFacts (as_system host.now) all.now }
    requires root { AreRootWays w.now root }
    requires first { first.now.bridge ≡ bridge_with host.now.topo.now.nodes first.now.uid }
    requires some { (place : Place) × HasSpan (as_system host.now) w.now range.now slot place }
    requires slot { slot < 16 }
    ensures { HasSpan (as_system host.now) w.now range.now slot result }
{
    // No port stands above a bridge.
    tree_laws();
    let _count = host.topo.count();
    let uid = w.targets()[usize::from(target_position(w, slot))];
    let bridge = target_with(host.topo, first, uid).unwrap();
    place_below(host, children, all, range, w, root, slot, bridge, 1, likely)
}

/// The place of a device to which a slot leads from a node on, above which the ports have so many ways together.
fn place_below(
    host: &Host,
    children: &[Option<u32>],
    all: &[DecoderFacts],
    range: &Range,
    w: &Window,
    root: u32,
    slot: u8,
    node: u32,
    above: u32,
    likely: u8,
) -> Place
    requires ready { IsOrderlySystem (as_system host.now) }
    requires children { AreAllChildren host.now.topo.now.nodes children.now }
    requires all { AreAllFacts (as_system host.now) all.now }
    requires root { AreRootWays w.now root }
    requires above { AreWaysAbove (as_system host.now) range.now node above }
    requires some { (place : Place) × LeadsTo (as_system host.now) w.now range.now slot node place }
    ensures { LeadsTo (as_system host.now) w.now range.now slot node result }
{
    // A child comes after its parent.
    tree_laws();
    let _count = host.topo.count();
    if host.topo.is_endpoint(node) {
        let i = index_for(host, range, node, likely).unwrap();
        let d = host.image.block(node).decoder(i);
        let facts = facts_at(host, all, node, i, &d);
        return Place {
            endpoint: node,
            start: start_of(host, &facts, node, i, &d),
        };
    }
    let d = decoder_for(host, range, node, likely);
    let child = next_of(host, children, range, w, root, slot, node, above, &d).unwrap();
    let above = ways_with(above, &d);
    place_below(
        host, children, all, range, w, root, slot, child, above, likely,
    )
}

/// Where a slot goes on from a node that is no endpoint.
fn next_of(
    host: &Host,
    children: &[Option<u32>],
    range: &Range,
    w: &Window,
    root: u32,
    slot: u8,
    node: u32,
    above: u32,
    d: &Option<Decoder>,
) -> Option<u32>
    requires here { node < length host.now.topo.now.nodes }
    requires root { AreRootWays w.now root }
    requires above { AreWaysAbove (as_system host.now) range.now node above }
    requires own { d.now ≡ decoder_for (as_system host.now) range.now node }
    requires children { AreAllChildren host.now.topo.now.nodes children.now }
    ensures { result ≡ next_of (as_system host.now) w.now range.now slot node }
{
    if host.topo.forwards(node) {
        host.topo.least_child(node)
    } else {
        child_of_slot(host, children, range, w, root, slot, node, above, d)
    }
}

/// The child to which a port's decoder of the range leads a slot.
fn child_of_slot(
    host: &Host,
    children: &[Option<u32>],
    range: &Range,
    w: &Window,
    root: u32,
    slot: u8,
    node: u32,
    above: u32,
    d: &Option<Decoder>,
) -> Option<u32>
    requires here { node < length host.now.topo.now.nodes }
    requires root { AreRootWays w.now root }
    requires above { AreWaysAbove (as_system host.now) range.now node above }
    requires own { d.now ≡ decoder_for (as_system host.now) range.now node }
    requires children { AreAllChildren host.now.topo.now.nodes children.now }
    ensures { result ≡ child_of_slot (as_system host.now) w.now range.now slot node }
{
    match d {
        Some(d) => {
            let entry = entry_of_slot(w, root, slot, above, d);
            child_at(host.topo, children, node, d.entry_at(entry))
        }
        None => None,
    }
}

/// The entry of its decoder to which a port leads a slot, by the ways of the ports above it.
fn entry_of_slot(w: &Window, root: u32, slot: u8, above: u32, d: &Decoder) -> u8
    requires root { AreRootWays w.now root }
    requires some { 0 < above }
    requires few { above ≤ 2 ^ 20 }
    ensures { result ≡ slot / (2 ^ bits_of w.now.ways * above) % decoder_ways d.now }
{
    let shared = root * above;
    (u32::from(slot) / shared % u32::from(d.interleave_ways())) as u8
}

/// The ways above a port's children, by those above it and its decoder.
fn ways_with(above: u32, d: &Option<Decoder>) -> u32
    requires some { 0 < above }
    requires few { above ≤ 2 ^ 20 }
    ensures ways { result ≡ option_map_or decoder_ways d.now 1 * above }
    ensures some { 0 < result }
{
    match d {
        Some(d) => u32::from(d.interleave_ways()) * above,
        None => above,
    }
}
