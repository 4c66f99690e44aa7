//! Why a window does not take a request, or the least base where it does.

ghost use Rattle.std.specs.Prelude.{◌≡◌, ℕ, ◌<◌, ◌≤◌, ◌+◌, ◌==◌, ◌&&◌, ◌||◌, not, nat_le, true, false, List, length, find, slice_get, Some, IfOk, IfErr, IfSome, IfNone};
ghost use Rattle.std.specs.Option.{option_map_or};
ghost use Rattle.std.specs.List.{list_all, list_any, range_with_len, All};
ghost use Rattle.cxl_enc.specs.Codes.{is_ways, code_in_table};
ghost use Rattle.cxl_enc.specs.Limits.{address_limit};
ghost use Rattle.cxl_regs.specs.Registers.{Registers};
ghost use Rattle.cxl_regs.specs.Rules.{select_ok, endpoint_ways_ok};
ghost use Rattle.cxl_topo.specs.declared.node.Node.{Node};
ghost use Rattle.cxl_topo.specs.Tree.{is_endpoint_at, is_bridge_at};
ghost use Rattle.cxl_window.specs.Fields.{WindowFields};
ghost use Rattle.cxl_legal.specs.Used.{request_ways, is_used};
ghost use Rattle.cxl_legal.specs.Windows.{has_used_bridges, is_used_bridge, is_target, can_have_ways};
ghost use Rattle.cxl_plan.specs.Faults.{TakesRequest, IsReason};
ghost use Rattle.cxl_plan.specs.inner.Uses.{tree_alone, AreUses};
ghost use Rattle.cxl_plan.specs.inner.Stages.{stage_at, AreStages};
ghost use Rattle.cxl_plan.specs.inner.Judging.{over, selects_at, KeepsWindow};
ghost use Rattle.cxl_plan.specs.inner.Floors.{IsFloor};

use crate::base::least_base;
use crate::stages::{Stage, stage_code};
use crate::used::Uses;
use cxl_legal::{agrees_on_gran, can_have_ways};
use cxl_model::{Reason, Request, Room};
use cxl_regs::select_ok;
use cxl_topo::{NodeKind, Topo, tree_laws};
use cxl_window::{Window, is_fixed, permits};

/// The least base in a window that takes the request, or the first reason why it does not.
pub(crate) fn base_in(
    topo: &Topo,
    request: &Request,
    uses: &Uses,
    stages: &[Stage],
    floor: u64,
    w: &Window,
) -> Result<u64, Reason>
    requires uses { AreUses topo.now.nodes request.now uses.now }
    requires stages { AreStages topo.now.nodes request.now uses.now.nodes.items stages.now }
    requires known { is_ways (request_ways request.now) ≡ true }
    requires named { All (λ m. is_endpoint_at topo.now.nodes m ≡ true) request.now.endpoints }
    requires size { request.now.size ≤ address_limit }
    requires floor { floor ≤ address_limit }
    ensures takes { (blocks : List Registers) (windows : List WindowFields) → IsFloor topo.now.nodes blocks request.now floor
        → slice_get windows w.now.index ≡ Some w.now → IfOk result (TakesRequest (over topo.now.nodes blocks windows) request.now w.now) }
    ensures reason { (blocks : List Registers) (windows : List WindowFields) → IsFloor topo.now.nodes blocks request.now floor
        → IfErr result (IsReason (over topo.now.nodes blocks windows) request.now w.now) }
{
    tree_laws();
    let _count = topo.count();
    if let Some(reason) = first_reason(topo, request, uses, stages, w) {
        return Err(reason);
    }
    // A window that can be used ends where an address may.
    let _index = w.index();
    let start = least_base(w, floor);
    let limit = w.base() + w.size();
    if start + request.size > limit {
        return Err(Reason::NoBase(Room { start, limit }));
    }
    Ok(start)
}

/// The first reason that does not speak of room.
fn first_reason(
    topo: &Topo,
    request: &Request,
    uses: &Uses,
    stages: &[Stage],
    w: &Window,
) -> Option<Reason>
    requires uses { AreUses topo.now.nodes request.now uses.now }
    requires stages { AreStages topo.now.nodes request.now uses.now.nodes.items stages.now }
    requires known { is_ways (request_ways request.now) ≡ true }
    ensures none { IfNone result (KeepsWindow topo.now.nodes request.now w.now) }
    ensures some { IfSome result (λ reason. (blocks : List Registers) (windows : List WindowFields)
        → IsReason (over topo.now.nodes blocks windows) request.now w.now reason) }
{
    if !w.is_usable() {
        return Some(Reason::Unusable);
    }
    if !permits(w, request.kind) {
        return Some(Reason::Kind);
    }
    if is_fixed(w) {
        return Some(Reason::Fixed);
    }
    if !has_used_bridges(topo, request, uses, w) {
        return Some(Reason::Bridges);
    }
    if !agrees_on_gran(request.gran, w) {
        return Some(Reason::Gran);
    }
    if let Some(node) = first_not_selecting(topo, request, uses, stages, w) {
        return Some(Reason::Select(node));
    }
    if let Some(node) = first_without_ways(topo, request, uses) {
        return Some(Reason::WaysCap(node));
    }
    None
}

/// Whether the targets of a window are exactly the used bridges. These are asked first, since most windows target none
/// of them and no bridge is sought for that.
fn has_used_bridges(topo: &Topo, request: &Request, uses: &Uses, w: &Window) -> bool
    requires { AreUses topo.now.nodes request.now uses.now }
    ensures { result ≡ has_used_bridges (tree_alone topo.now.nodes) request.now w.now }
{
    are_targets(topo, request, uses, w) && are_used(topo, request, uses, w)
}

/// Whether each target of a window is a used bridge.
fn are_used(topo: &Topo, request: &Request, uses: &Uses, w: &Window) -> bool
    requires { AreUses topo.now.nodes request.now uses.now }
    ensures { result ≡ list_all (is_used_bridge (tree_alone topo.now.nodes) request.now) w.now.targets }
{
    w.targets()
        .iter()
        .all(|uid| is_used_bridge(topo, request, uses, *uid))
}

/// Whether a UID is that of a used bridge.
fn is_used_bridge(topo: &Topo, request: &Request, uses: &Uses, uid: u32) -> bool
    requires { AreUses topo.now.nodes request.now uses.now }
    ensures { result ≡ is_used_bridge (tree_alone topo.now.nodes) request.now uid }
{
    tree_laws();
    let _count = topo.count();
    match topo.bridge(uid) {
        Some(bridge) => uses.nodes.contains(&bridge),
        None => false,
    }
}

/// Whether each used bridge is a target of a window.
fn are_targets(topo: &Topo, request: &Request, uses: &Uses, w: &Window) -> bool
    requires { AreUses topo.now.nodes request.now uses.now }
    ensures { result ≡ list_all (λ n. not (is_bridge_at topo.now.nodes n && is_used (tree_alone topo.now.nodes) request.now n) || is_target (tree_alone topo.now.nodes) w.now n) (range_with_len 0 (length topo.now.nodes)) }
{
    for node in &uses.nodes {
        if !is_other_or_target(topo, w, *node) {
            return false;
        }
    }
    true
}

/// Whether a node is no bridge, or a target of a window.
fn is_other_or_target(topo: &Topo, w: &Window, node: u32) -> bool
    requires { node < length topo.now.nodes }
    ensures { result ≡ (not (is_bridge_at topo.now.nodes node) || is_target (tree_alone topo.now.nodes) w.now node) }
{
    match topo.node(node).kind {
        NodeKind::Bridge(uid) => has_target(w, uid),
        NodeKind::Switch | NodeKind::Endpoint(_) => true,
    }
}

/// Whether a bridge of this UID is a target of a window. These are few, so that they are met one by one.
pub(crate) fn has_target(w: &Window, uid: u32) -> bool
    ensures { result ≡ list_any (λ target. target == uid) w.now.targets }
{
    w.targets().iter().any(|target| *target == uid)
}

/// The least used node that could not select as it would have to.
fn first_not_selecting(
    topo: &Topo,
    request: &Request,
    uses: &Uses,
    stages: &[Stage],
    w: &Window,
) -> Option<u32>
    requires uses { AreUses topo.now.nodes request.now uses.now }
    requires stages { AreStages topo.now.nodes request.now uses.now.nodes.items stages.now }
    ensures { result ≡ find (λ m. not (selects_at topo.now.nodes request.now w.now m)) (range_with_len 0 (length topo.now.nodes)) }
{
    let nodes = uses.nodes.as_slice();
    for place in 0..nodes.len() {
        if !can_select(&stages[place], request, w) {
            return Some(nodes[place]);
        }
    }
    None
}

/// Whether a used node could select as it would have to, by its stage.
fn can_select(stage: &Stage, request: &Request, w: &Window) -> bool
    ensures { (nodes : List Node) (n : ℕ) → is_used (tree_alone nodes) request.now n ≡ true
        → stage.now ≡ stage_at nodes request.now n → result ≡ selects_at nodes request.now w.now n }
{
    selects(stage.cap, stage_code(stage, request, w), stage.bits)
}

fn selects(cap: u32, code: u32, bits: u8) -> bool
    ensures { result ≡ (nat_le code 6 && select_ok cap code bits) }
{
    code <= 6 && select_ok(cap, code as u8, bits)
}

/// The least requested endpoint that cannot have the ways of the request.
fn first_without_ways(topo: &Topo, request: &Request, uses: &Uses) -> Option<u32>
    requires uses { AreUses topo.now.nodes request.now uses.now }
    requires known { is_ways (request_ways request.now) ≡ true }
    ensures { result ≡ find (λ m. not (can_have_ways (tree_alone topo.now.nodes) request.now m)) (range_with_len 0 (length topo.now.nodes)) }
{
    for node in &uses.nodes {
        if !is_port_or_has_ways(topo, request, *node) {
            return Some(*node);
        }
    }
    None
}

/// Whether a node is no endpoint, or can have the ways of the request.
fn is_port_or_has_ways(topo: &Topo, request: &Request, node: u32) -> bool
    requires known { is_ways (request_ways request.now) ≡ true }
    requires here { node < length topo.now.nodes }
    ensures { result ≡ (not (is_endpoint_at topo.now.nodes node)
        || option_map_or (endpoint_ways_ok (option_map_or (λ own. own.cap) (slice_get topo.now.nodes node) 0)) (code_in_table (request_ways request.now)) false) }
{
    let ways = request.endpoints.items().len() as u8;
    !topo.is_endpoint(node) || can_have_ways(topo.node(node).cap, ways)
}
