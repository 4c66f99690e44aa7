//! The planner: a legal plan in the first window that takes one, or why there is none.

ghost use Rattle.std.specs.Prelude.{◌≡◌, ◌≢◌, ◌<◌, IfOk, IfErr, IfSome, IfNone, OnOk, Err, Some};
ghost use Rattle.cxl_topo.specs.Tree.{bridge_uids};
ghost use Rattle.cxl_window.specs.Windows.{AreMadeWith};
ghost use Rattle.cxl_model.specs.Hosts.{as_system};
ghost use Rattle.cxl_model.specs.System.{System, system_of};
ghost use Rattle.cxl_model.specs.Accepted.{IsAccepted};
ghost use Rattle.cxl_model.specs.Plans.{IsLegalPlan};
ghost use Rattle.cxl_model.specs.declared.plan.Plan.{Plan};
ghost use Rattle.cxl_legal.specs.Used.{AreEndpoints};
ghost use Rattle.cxl_legal.specs.Endpoints.{FitsEndpoints};
ghost use Rattle.cxl_legal.specs.Stated.{IsStatedPlan};
ghost use Rattle.cxl_plan.specs.Faults.{IsFirstPlanFault, IsFirstPlan, IsLeastPlan};
ghost use Rattle.cxl_plan.specs.Planned.{planned};
ghost use Rattle.cxl_plan.specs.inner.Uses.{tree_alone, AreUses};
ghost use Rattle.cxl_plan.specs.inner.Stages.{AreStages};
ghost use Rattle.cxl_plan.specs.inner.Judging.{AsksOrderlySystem, IsEarly, IsTakenBy};

use crate::choosing::{Choice, choose};
use crate::judge::{first_full, first_uneven, repeated};
use crate::laws::requests_come_to_answers;
use crate::room::first_refused;
use crate::rows::rows;
use crate::spans::places;
use crate::stages::{Stage, stages};
use crate::used::{Uses, uses_of};
use crate::ways::plan_code;
use cxl_enc::FixedList;
use cxl_image::Image;
use cxl_legal::{fitting_plans_are_legal, is_size, is_ways, legal_plans_fit, ports_are_bytes};
use cxl_model::{Found, Host, Plan, PlanFault, Request, accepted_image_is_system};
use cxl_topo::{Topo, tree_laws};
use cxl_window::Window;
use std::alloc::{AllocError, Global};

/// The plan of a new region for the request: in the first window that takes it, at the least base there, with a row
/// for each node that leads to one of its endpoints and does not forward; or the first cause why no plan is legal.
/// The order of the endpoints does not matter. (Which plans are legal is this project's rule.) Takes memory.
pub fn plan(
    alloc: Global,
    image: &Image,
    topo: &Topo,
    windows: &[Window],
    request: &Request,
) -> Result<Plan, PlanFault>
    requires made { AreMadeWith windows.now (bridge_uids topo.now.nodes) }
    requires accepted { IsAccepted (system_of image.now topo.now windows.now) }
    requires named { AreEndpoints (system_of image.now topo.now windows.now) request.now }
    // But for want of memory, the answer to a request that has no plan is its first fault.
    ensures fault { IfErr result (λ fault. fault ≢ PlanFault.Memory
        → IsFirstPlanFault (system_of image.now topo.now windows.now) request.now fault) }
    ensures endpoints { OnOk result (FitsEndpoints (system_of image.now topo.now windows.now) request.now) }
    // And no plan is legal then. (Those that are given are.)
    ensures none { IfErr result (λ fault. fault ≢ PlanFault.Memory
        → (plan : Plan) → IsLegalPlan (system_of image.now topo.now windows.now) request.now plan → ⊥) }
    ensures legal { IfOk result (IsLegalPlan (system_of image.now topo.now windows.now) request.now) }
    ensures least { IfOk result (IsLeastPlan (system_of image.now topo.now windows.now) request.now) }
    // A plan is the one that is stated in the first window that takes the request, at the least base there.
    ensures plan { IfOk result (λ plan. IsFirstPlan (system_of image.now topo.now windows.now) request.now plan) }
    // So but for want of memory there is one answer, which is computed from the nodes, blocks and windows.
    ensures answer { result ≢ Err PlanFault.Memory
        → result ≡ planned (system_of image.now topo.now windows.now) request.now }
{
    legal_plans_fit();
    fitting_plans_are_legal();
    requests_come_to_answers();
    tree_laws();
    ports_are_bytes(topo);
    accepted_image_is_system(image, topo, windows);
    if let Some(fault) = early_fault(topo, request) {
        return Err(fault);
    }
    let host = Host {
        image,
        topo,
        windows,
    };
    plan_ready(alloc, &host, request)
}

/// The plan for a request that is known to be sound by itself, or the first fault.
fn plan_ready(alloc: Global, host: &Host, request: &Request) -> Result<Plan, PlanFault>
    requires ready { AsksOrderlySystem (as_system host.now) request.now }
    requires early { IsEarly request.now }
    ensures fault { IfErr result (λ fault. fault ≢ PlanFault.Memory
        → IsFirstPlanFault (as_system host.now) request.now fault) }
    ensures endpoints { OnOk result (FitsEndpoints (as_system host.now) request.now) }
    ensures plan { IfOk result (λ plan. IsFirstPlan (as_system host.now) request.now plan) }
{
    let Ok(uses) = uses_of(alloc, host.topo, request) else {
        return Err(PlanFault::Memory);
    };
    if let Some(fault) = node_fault(host, request, &uses) {
        return Err(fault);
    }
    plan_fitting(alloc, host, request, &uses)
}

/// The plan for a request that keeps all that it has to in its nodes, or why no window takes it.
fn plan_fitting(
    alloc: Global,
    host: &Host,
    request: &Request,
    uses: &Uses,
) -> Result<Plan, PlanFault>
    requires ready { AsksOrderlySystem (as_system host.now) request.now }
    requires early { IsEarly request.now }
    requires uses { AreUses host.now.topo.now.nodes request.now uses.now }
    requires fits { FitsEndpoints (as_system host.now) request.now }
    ensures fault { IfErr result (λ fault. fault ≢ PlanFault.Memory
        → IsFirstPlanFault (as_system host.now) request.now fault) }
    ensures endpoints { OnOk result (FitsEndpoints (as_system host.now) request.now) }
    ensures plan { IfOk result (λ plan. IsFirstPlan (as_system host.now) request.now plan) }
{
    let Ok(stages) = stages(alloc, host.topo, request, uses) else {
        return Err(PlanFault::Memory);
    };
    plan_staged(alloc, host, request, uses, &stages)
}

/// The same, with the stages of the used nodes.
fn plan_staged(
    alloc: Global,
    host: &Host,
    request: &Request,
    uses: &Uses,
    stages: &[Stage],
) -> Result<Plan, PlanFault>
    requires ready { AsksOrderlySystem (as_system host.now) request.now }
    requires early { IsEarly request.now }
    requires uses { AreUses host.now.topo.now.nodes request.now uses.now }
    requires fits { FitsEndpoints (as_system host.now) request.now }
    requires stages { AreStages host.now.topo.now.nodes request.now uses.now.nodes.items stages.now }
    ensures fault { IfErr result (λ fault. fault ≢ PlanFault.Memory
        → IsFirstPlanFault (as_system host.now) request.now fault) }
    ensures endpoints { OnOk result (FitsEndpoints (as_system host.now) request.now) }
    ensures plan { IfOk result (λ plan. IsFirstPlan (as_system host.now) request.now plan) }
{
    let windows = host.windows;
    let Ok(choice) = choose(alloc, host, request, uses, stages) else {
        return Err(PlanFault::Memory);
    };
    match choice {
        Choice::Found(i, base) => match plan_at(
            alloc,
            host,
            request,
            uses,
            stages,
            &windows[i],
            base,
        ) {
            Ok(plan) => Ok(plan),
            Err(_) => Err(PlanFault::Memory),
        },
        Choice::Nowhere(reasons) => Err(PlanFault::NoWindow(FixedList::new(reasons))),
    }
}

/// The first fault of a request by itself.
fn early_fault(topo: &Topo, request: &Request) -> Option<PlanFault>
    requires { AreEndpoints (tree_alone topo.now.nodes) request.now }
    ensures some { IfSome result (λ fault. (s : System) → IsFirstPlanFault s request.now fault) }
    ensures none { IfNone result (IsEarly request.now) }
{
    let _count = topo.count();
    let endpoints = request.endpoints.items();
    if let Some(endpoint) = repeated(endpoints) {
        return Some(PlanFault::Repeat(endpoint));
    }
    if !is_ways(endpoints.len()) {
        return Some(PlanFault::Ways(endpoints.len() as u32));
    }
    if !is_size(request.size, endpoints.len() as u8) {
        return Some(PlanFault::Size);
    }
    None
}

/// The first fault of the nodes that the request would use.
fn node_fault(host: &Host, request: &Request, uses: &Uses) -> Option<PlanFault>
    requires ready { AsksOrderlySystem (as_system host.now) request.now }
    requires early { IsEarly request.now }
    requires uses { AreUses host.now.topo.now.nodes request.now uses.now }
    ensures some { IfSome result (IsFirstPlanFault (as_system host.now) request.now) }
    ensures none { IfNone result (FitsEndpoints (as_system host.now) request.now) }
{
    if let Some(node) = first_uneven(host.topo, request, uses) {
        return Some(PlanFault::Uneven(node));
    }
    if let Some(node) = first_full(host.image, uses) {
        return Some(PlanFault::NoDecoder(node));
    }
    match first_refused(host, request, uses) {
        Some((endpoint, fault)) => Some(PlanFault::Span(endpoint, fault)),
        None => None,
    }
}

/// The plan in a window that takes the request, at a base. Takes memory.
fn plan_at(
    alloc: Global,
    host: &Host,
    request: &Request,
    uses: &Uses,
    stages: &[Stage],
    w: &Window,
    base: u64,
) -> Result<Plan, AllocError>
    requires settled { IsTakenBy (as_system host.now) request.now uses.now w.now }
    requires stages { AreStages host.now.topo.now.nodes request.now uses.now.nodes.items stages.now }
    ensures { IfOk result (λ plan. IsStatedPlan (as_system host.now) request.now w.now base plan) }
{
    let spans = places(alloc, host, request, uses, w)?;
    let rows = rows(alloc, host, request, uses, stages, w, base)?;
    Ok(Plan {
        name: request.name,
        found: Found {
            base,
            size: request.size,
            window: w.index(),
            gran: plan_code(request, w),
            ways: request.endpoints.items().len() as u8,
            kind: request.kind,
            spans: FixedList::new(spans),
        },
        rows: FixedList::new(rows),
    })
}
