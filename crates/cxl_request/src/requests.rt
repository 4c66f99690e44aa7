//! What a create line asks of the planner and of the picker.

ghost use Rattle.std.specs.Prelude.{◌≡◌, ◌≢◌, true, None, Some, All, IfOk, IfErr};
ghost use Rattle.cxl_topo.specs.Tree.{bridge_uids, is_endpoint_at};
ghost use Rattle.cxl_window.specs.Windows.{AreMadeWith};
ghost use Rattle.cxl_model.specs.Accepted.{IsAccepted};
ghost use Rattle.cxl_model.specs.Hosts.{as_system};
ghost use Rattle.cxl_model.specs.declared.plan.PlanFault.{PlanFault};
ghost use Rattle.cxl_pick.specs.declared.fault.PickFault.{PickFault};
ghost use Rattle.cxl_reply.specs.Plans.{IsToldPlan};
ghost use Rattle.cxl_reply.specs.Conditions.{IsTold};
ghost use Rattle.cxl_script.specs.Grammar.{StatesGranCode};
ghost use Rattle.cxl_request.specs.Plans.{IsPlanFor, IsRefusal};
ghost use Rattle.cxl_request.specs.Requests.{request_for, want_of, pick_reply, plan_over, plan_of_line, AsksForPlan};

use crate::endpoints::{endpoints_named, unknown_beside};
use crate::laws::{answered_lines_can_be_told, answers_hold_of_lines};
use cxl_enc::{FixedList, Memory};
use cxl_legal::ports_are_bytes;
use cxl_model::{Host, Plan, PlanFault, Request, accepted_image_is_system};
use cxl_pick::{PickFault, Want, pick};
use cxl_plan::plan;
use cxl_reply::Reply;
use cxl_script::Create;
use std::alloc::Global;

/// The plan that a create line asks for over a host, or why there is none: the first name on it that no endpoint has,
/// the first fault of its request, or why no endpoints are picked. No register is read or written. Takes memory.
pub fn asked_plan(
    alloc: Global,
    create: &Create,
    host: &Host,
) -> Result<Result<Plan, Reply>, Memory>
    requires made { AreMadeWith host.now.windows.now (bridge_uids host.now.topo.now.nodes) }
    requires accepted { IsAccepted (as_system host.now) }
    requires code { StatesGranCode create.now }
    // There is one answer, which is computed from the nodes, blocks and windows.
    ensures answer { IfOk result (AsksForPlan (as_system host.now) create.now) }

    // A plan is legal, and the first and least of its line; a refusal has its cause, and then no plan is legal.
    ensures plan { IfOk result (λ answer. IfOk answer (IsPlanFor (as_system host.now) create.now)) }
    ensures refusal { IfOk result (λ answer. IfErr answer (IsRefusal (as_system host.now) create.now)) }

    // Both can be told.
    ensures told { IfOk result (λ answer. IfOk answer (IsToldPlan host.now.topo.now.nodes)) }
    ensures reply { IfOk result (λ answer. IfErr answer (IsTold host.now.topo.now.nodes)) }
{
    answers_hold_of_lines();
    answered_lines_can_be_told();
    ports_are_bytes(host.topo);
    accepted_image_is_system(host.image, host.topo, host.windows);
    plan_of_line(alloc, create, host)
}

/// The answer by the line's form. Takes memory.
fn plan_of_line(alloc: Global, create: &Create, host: &Host) -> Result<Result<Plan, Reply>, Memory>
    requires made { AreMadeWith host.now.windows.now (bridge_uids host.now.topo.now.nodes) }
    requires accepted { IsAccepted (as_system host.now) }
    requires code { StatesGranCode create.now }
    ensures { IfOk result (AsksForPlan (as_system host.now) create.now) }
{
    match create.ways {
        Some(ways) => plan_over_pick(alloc, create, ways, host),
        None => plan_by_name(alloc, create, host),
    }
}

/// The answer to a line that names its endpoints. Takes memory.
fn plan_by_name(alloc: Global, create: &Create, host: &Host) -> Result<Result<Plan, Reply>, Memory>
    requires made { AreMadeWith host.now.windows.now (bridge_uids host.now.topo.now.nodes) }
    requires accepted { IsAccepted (as_system host.now) }
    ensures { IfOk result (λ answer. answer ≡ plan_of_line (as_system host.now) create.now None) }
{
    let names = create.endpoints.items();
    let endpoints = endpoints_named(alloc, host.topo, names)?;
    match unknown_beside(host.topo, names, &endpoints) {
        Some(name) => Ok(Err(Reply::NoEndpoint(name))),
        None => plan_over(alloc, create, endpoints, host),
    }
}

/// The answer to a line that states ways: so many endpoints are picked. Takes memory.
fn plan_over_pick(
    alloc: Global,
    create: &Create,
    ways: u8,
    host: &Host,
) -> Result<Result<Plan, Reply>, Memory>
    requires made { AreMadeWith host.now.windows.now (bridge_uids host.now.topo.now.nodes) }
    requires accepted { IsAccepted (as_system host.now) }
    requires code { StatesGranCode create.now }
    ensures { IfOk result (λ answer. answer ≡ plan_of_line (as_system host.now) create.now (Some ways)) }
{
    let want = want_of(create, ways);
    match pick(alloc, host.image, host.topo, host.windows, &want) {
        Ok(endpoints) => plan_over(alloc, create, endpoints, host),
        Err(fault) => Ok(Err(refusal_of_pick(fault)?)),
    }
}

/// The answer over these endpoints. Takes memory.
fn plan_over(
    alloc: Global,
    create: &Create,
    endpoints: Vec<u32>,
    host: &Host,
) -> Result<Result<Plan, Reply>, Memory>
    requires made { AreMadeWith host.now.windows.now (bridge_uids host.now.topo.now.nodes) }
    requires accepted { IsAccepted (as_system host.now) }
    requires named { All (λ m. is_endpoint_at host.now.topo.now.nodes m ≡ true) endpoints.items }
    ensures { IfOk result (λ answer. answer ≡ plan_over (as_system host.now) create.now endpoints.items) }
{
    let request = request_for(create, endpoints);
    match plan(alloc, host.image, host.topo, host.windows, &request) {
        Ok(plan) => Ok(Ok(plan)),
        Err(fault) => Ok(Err(refusal_of_plan(fault)?)),
    }
}

/// What a create line asks of the planner, over these endpoints.
fn request_for(create: &Create, endpoints: Vec<u32>) -> Request
    ensures { result ≡ request_for create.now endpoints.items }
{
    Request {
        name: create.name,
        kind: create.kind,
        size: create.size,
        gran: create.gran,
        endpoints: FixedList::new(endpoints),
    }
}

/// What a create line wants of the picker.
fn want_of(create: &Create, ways: u8) -> Want
    ensures { result ≡ want_of create.now ways }
{
    Want {
        kind: create.kind,
        size: create.size,
        gran: create.gran,
        ways,
    }
}

/// A fault of the planner as a refusal. Its want of memory is want of memory here.
fn refusal_of_plan(fault: PlanFault) -> Result<Reply, Memory>
    ensures refusal { IfOk result (λ refusal. refusal ≡ Reply.Refused fault) }
    ensures real { IfOk result (λ refusal. fault ≢ PlanFault.Memory) }
{
    match fault {
        PlanFault::Memory => Err(Memory),
        other => Ok(Reply::Refused(other)),
    }
}

/// A fault of the picker as a refusal. Its want of memory is want of memory here.
fn refusal_of_pick(fault: PickFault) -> Result<Reply, Memory>
    ensures refusal { IfOk result (λ refusal. refusal ≡ pick_reply fault) }
    ensures real { IfOk result (λ refusal. fault ≢ PickFault.Memory) }
{
    match fault {
        PickFault::Ways(ways) => Ok(Reply::Refused(PlanFault::Ways(ways))),
        PickFault::Size => Ok(Reply::Refused(PlanFault::Size)),
        PickFault::NoSet => Ok(Reply::NoSet),
        PickFault::Memory => Err(Memory),
    }
}
