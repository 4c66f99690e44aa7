//! The first window that takes a request.

ghost use Rattle.std.specs.Prelude.{◌≡◌, ◌<◌, ◌==◌, not, true, false, length, slice_get, Some, IfOk, IfSome, IfNone};
ghost use Rattle.std.specs.Option.{option_map_or};
ghost use Rattle.std.specs.List.{list_any};
ghost use Rattle.cxl_topo.specs.Tree.{is_bridge_at, uid_at};
ghost use Rattle.cxl_window.specs.Fields.{WindowFields};
ghost use Rattle.cxl_model.specs.Hosts.{as_system};
ghost use Rattle.cxl_plan.specs.inner.Uses.{AreUses};
ghost use Rattle.cxl_plan.specs.inner.Stages.{AreStages};
ghost use Rattle.cxl_plan.specs.inner.Judging.{AsksOrderlySystem, HasLowShare};
ghost use Rattle.cxl_plan.specs.Faults.{TakesFirst, IsReason, AreReasons};
ghost use Rattle.cxl_plan.specs.inner.Floors.{IsFloor};
ghost use Rattle.cxl_plan.specs.inner.Choices.{IsChoice, IsUsedUid, HasReason, NoneTakes};

use crate::base::floor;
use crate::stages::Stage;
use crate::used::Uses;
use crate::windows::{base_in, has_target};
use cxl_model::{Host, Reason, Request};
use cxl_topo::{NodeKind, Topo};
use cxl_window::Window;
use std::alloc::{AllocError, Global};

/// Where a region may stand.
#[derive(Drop)]
pub enum Choice {
    /// The place of the window among all, and the base.
    Found(usize, u64),
    /// Why each window does not take it, in table order.
    Nowhere(Vec<Reason>),
}

/// The first window that takes the request, with the least base there, or why none does. Why not is asked only where
/// none does, so that a region that has its place takes no memory for it. Takes memory.
pub(crate) fn choose(
    alloc: Global,
    host: &Host,
    request: &Request,
    uses: &Uses,
    stages: &[Stage],
) -> Result<Choice, AllocError>
    requires ready { AsksOrderlySystem (as_system host.now) request.now }
    requires sound { HasLowShare request.now }
    requires uses { AreUses host.now.topo.now.nodes request.now uses.now }
    requires stages { AreStages host.now.topo.now.nodes request.now uses.now.nodes.items stages.now }
    ensures { IfOk result (IsChoice (as_system host.now) request.now) }
{
    let floor = floor(host, request, uses);
    if let Some((i, base)) = first_taking(host, request, uses, stages, floor) {
        return Ok(Choice::Found(i, base));
    }
    let reasons = reasons(alloc, host, request, uses, stages, floor)?;
    Ok(Choice::Nowhere(reasons))
}

/// The first window that takes the request, and the least base there. Windows that do not target one used bridge are
/// passed over by that alone, and the function stays one, so that this loop keeps its registers.
#[inline(never)]
fn first_taking(
    host: &Host,
    request: &Request,
    uses: &Uses,
    stages: &[Stage],
    floor: u64,
) -> Option<(usize, u64)>
    requires ready { AsksOrderlySystem (as_system host.now) request.now }
    requires sound { HasLowShare request.now }
    requires uses { AreUses host.now.topo.now.nodes request.now uses.now }
    requires stages { AreStages host.now.topo.now.nodes request.now uses.now.nodes.items stages.now }
    requires floor { IsFloor host.now.topo.now.nodes host.now.image.now request.now floor }
    ensures taken { IfSome result (λ at. (w : WindowFields) × (slice_get host.now.windows.now at.0 ≡ Some w)
        × TakesFirst (as_system host.now) request.now w at.1) }
    ensures none { IfNone result (NoneTakes (as_system host.now) request.now) }
{
    let windows = host.windows;
    let uid = used_uid(host.topo, request, uses);
    for (i, w) in windows.iter().enumerate() {
        if lacks(w, uid) {
            continue;
        }
        if let Ok(base) = base_in(host.topo, request, uses, stages, floor, w) {
            return Some((i, base));
        }
    }
    None
}

/// The UID of a used bridge.
fn used_uid(topo: &Topo, request: &Request, uses: &Uses) -> Option<u32>
    requires { AreUses topo.now.nodes request.now uses.now }
    ensures { IfSome result (IsUsedUid topo.now.nodes request.now) }
{
    for node in &uses.nodes {
        if let Some(uid) = bridge_uid(topo, *node) {
            return Some(uid);
        }
    }
    None
}

/// The UID of a node that is a bridge.
fn bridge_uid(topo: &Topo, node: u32) -> Option<u32>
    requires { node < length topo.now.nodes }
    ensures uid { result ≡ uid_at topo.now.nodes node }
    ensures bridge { IfSome result (λ _. is_bridge_at topo.now.nodes node ≡ true) }
{
    match topo.node(node).kind {
        NodeKind::Bridge(uid) => Some(uid),
        NodeKind::Switch | NodeKind::Endpoint(_) => None,
    }
}

/// Whether a window does not target the bridge of this UID, where there is one.
fn lacks(w: &Window, uid: Option<u32>) -> bool
    ensures { result ≡ option_map_or (λ uid. not (list_any (λ target. target == uid) w.now.targets)) uid false }
{
    match uid {
        Some(uid) => !has_target(w, uid),
        None => false,
    }
}

/// Why each window does not take a request that none takes, in table order. Takes memory.
fn reasons(
    alloc: Global,
    host: &Host,
    request: &Request,
    uses: &Uses,
    stages: &[Stage],
    floor: u64,
) -> Result<Vec<Reason>, AllocError>
    requires ready { AsksOrderlySystem (as_system host.now) request.now }
    requires sound { HasLowShare request.now }
    requires uses { AreUses host.now.topo.now.nodes request.now uses.now }
    requires stages { AreStages host.now.topo.now.nodes request.now uses.now.nodes.items stages.now }
    requires floor { IsFloor host.now.topo.now.nodes host.now.image.now request.now floor }
    requires none { NoneTakes (as_system host.now) request.now }
    ensures { IfOk result (λ reasons. AreReasons (as_system host.now) request.now reasons.items) }
{
    let windows = host.windows;
    let mut reasons = Vec::with_capacity(alloc, windows.len())?;
    for w in windows {
        reasons.push(reason_in(host, request, uses, stages, floor, w))?;
    }
    Ok(reasons)
}

/// Why the window at a place does not take a request that it does not take.
fn reason_in(
    host: &Host,
    request: &Request,
    uses: &Uses,
    stages: &[Stage],
    floor: u64,
    w: &Window,
) -> Reason
    requires ready { AsksOrderlySystem (as_system host.now) request.now }
    requires sound { HasLowShare request.now }
    requires uses { AreUses host.now.topo.now.nodes request.now uses.now }
    requires stages { AreStages host.now.topo.now.nodes request.now uses.now.nodes.items stages.now }
    requires floor { IsFloor host.now.topo.now.nodes host.now.image.now request.now floor }
    requires here { slice_get host.now.windows.now w.now.index ≡ Some w.now }
    requires none { HasReason (as_system host.now) request.now w.now }
    ensures { IsReason (as_system host.now) request.now w.now result }
{
    base_in(host.topo, request, uses, stages, floor, w)
        .err()
        .unwrap()
}
