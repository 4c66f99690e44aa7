//! The spans of a plan, by slot.

ghost use Rattle.std.specs.Prelude.{◌≡◌, ℕ, ◌*◌, ◌/◌, ◌%◌, ◌<◌, ◌≤◌, ◌^◌, IsTrue, true, false, length, slice_get, Some, IfOk};
ghost use Rattle.cxl_model.specs.declared.found.Place.{Place};
ghost use Rattle.cxl_enc.specs.Codes.{bits_of, is_ways};
ghost use Rattle.cxl_topo.specs.Tree.{is_endpoint_at};
ghost use Rattle.cxl_model.specs.Hosts.{as_system};
ghost use Rattle.cxl_legal.specs.Used.{is_used, is_port_used, request_ways};
ghost use Rattle.cxl_legal.specs.Stated.{IsStatedPlace};
ghost use Rattle.cxl_plan.specs.inner.Uses.{tree_alone, AreUses, HasWays, ports_at, ways_at, ways_above_at};
ghost use Rattle.cxl_plan.specs.inner.Judging.{IsTakenBy};
ghost use Rattle.cxl_plan.specs.inner.Planned.{ReachesAt};

use crate::room::span_of;
use crate::used::{Uses, ports_of};
use crate::ways::{planned_ways, used_above};
use cxl_model::{Host, Place, Request};
use cxl_topo::{Topo, tree_laws};
use cxl_window::{Window, root_ways, target_position};
use std::alloc::{AllocError, Global};

/// The place of each slot. Takes memory.
pub(crate) fn places(
    alloc: Global,
    host: &Host,
    request: &Request,
    uses: &Uses,
    w: &Window,
) -> Result<Vec<Place>, AllocError>
    requires { IsTakenBy (as_system host.now) request.now uses.now w.now }
    ensures slots { IfOk result (λ places. length places.items ≡ request_ways request.now) }
    ensures places { IfOk result (λ places. (slot : ℕ) (place : Place) → slice_get places.items slot ≡ Some place
        → IsStatedPlace (as_system host.now) request.now w.now slot place) }
{
    let ways = request.endpoints.items().len() as u8;
    let mut places = Vec::with_capacity(alloc, usize::from(ways))?;
    for slot in 0..ways {
        places.push(place_of(host, request, uses, w, slot))?;
    }
    Ok(places)
}

/// The place of one slot, from the window's target down.
fn place_of(host: &Host, request: &Request, uses: &Uses, w: &Window, slot: u8) -> Place
    requires settled { IsTakenBy (as_system host.now) request.now uses.now w.now }
    requires slot { slot < 16 }
    ensures { IsStatedPlace (as_system host.now) request.now w.now slot result }
{
    let uid = w.targets()[usize::from(target_position(w, slot))];
    let bridge = host.topo.bridge(uid).unwrap();
    let above = used_above(host.topo, request, uses, bridge);
    let endpoint = reached(host.topo, request, uses, w, slot, bridge, above.ways);
    Place {
        endpoint,
        start: span_of(host, request, endpoint).unwrap().start,
    }
}

/// The endpoint to which the used ports lead a slot from a used node on. `above` are the ways of the ports above it,
/// together.
fn reached(
    topo: &Topo,
    request: &Request,
    uses: &Uses,
    w: &Window,
    slot: u8,
    node: u32,
    above: u32,
) -> u32
    requires uses { AreUses topo.now.nodes request.now uses.now }
    requires ways { HasWays topo.now.nodes request.now }
    requires here { node < length topo.now.nodes }
    requires used { is_used (tree_alone topo.now.nodes) request.now node ≡ true }
    requires above { above ≡ ways_above_at topo.now.nodes request.now node }
    requires some { 0 < above }
    requires few { above ≤ 2 ^ 20 }
    ensures endpoint { is_endpoint_at topo.now.nodes result ≡ true }
    ensures used { is_used (tree_alone topo.now.nodes) request.now result ≡ true }
    ensures reaches { ReachesAt topo.now.nodes request.now w.now slot node result }
{
    // A child comes after its parent.
    tree_laws();
    let _count = topo.count();
    if topo.is_endpoint(node) {
        return node;
    }
    let ways = planned_ways(topo, request, uses, node);
    let port = port_of(topo, request, uses, w, slot, node, ways, above);
    let child = topo.child(node, port).unwrap();
    reached(topo, request, uses, w, slot, child, u32::from(ways) * above)
}

/// The used port of a node of these ways to which a slot belongs. `above` are the ways of the ports above it, together.
fn port_of(
    topo: &Topo,
    request: &Request,
    uses: &Uses,
    w: &Window,
    slot: u8,
    node: u32,
    ways: u8,
    above: u32,
) -> u8
    requires uses { AreUses topo.now.nodes request.now uses.now }
    requires ways { HasWays topo.now.nodes request.now }
    requires here { node < length topo.now.nodes }
    requires used { is_used (tree_alone topo.now.nodes) request.now node ≡ true }
    requires port { is_endpoint_at topo.now.nodes node ≡ false }
    requires own { ways ≡ ways_at topo.now.nodes request.now node }
    requires known { IsTrue (is_ways ways) }
    requires above { above ≡ ways_above_at topo.now.nodes request.now node }
    requires some { 0 < above }
    requires few { above ≤ 2 ^ 20 }
    ensures used { is_port_used (tree_alone topo.now.nodes) request.now node result ≡ true }
    ensures port { slice_get (ports_at topo.now.nodes request.now node)
        (slot / (2 ^ bits_of w.now.ways * ways_above_at topo.now.nodes request.now node) % ways_at topo.now.nodes request.now node) ≡ Some result }
{
    let ports = ports_of(topo, request, uses, node);
    let shared = root_ways(w) * above;
    let ways = u32::from(ways);
    ports[(u32::from(slot) / shared % ways) as usize]
}
