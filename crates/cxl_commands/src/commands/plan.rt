//! The command `plan`.

ghost use Rattle.std.specs.Prelude.{◌≡◌, ℕ, ◌≤◌, ◌⊎◌, List, IfOk};
ghost use Rattle.cxl_table.specs.CedtFields.{CedtFields};
ghost use Rattle.cxl_inputs.specs.ResetHost.{reset_host_of};
ghost use Rattle.cxl_io.specs.Sink.{Takes};
ghost use Rattle.cxl_model.specs.Accepted.{IsAccepted};
ghost use Rattle.cxl_model.specs.System.{IsSystem, system_of};
ghost use Rattle.cxl_reply.specs.Plans.{IsToldPlan};
ghost use Rattle.cxl_reply.specs.Conditions.{IsTold};
ghost use Rattle.cxl_request.specs.Plans.{HasPlan, HasNoPlan};
ghost use Rattle.cxl_script.specs.Grammar.{StatesGranCode};
ghost use Rattle.cxl_script.specs.declared.command.Create.{Create};
ghost use Rattle.cxl_topo.specs.Tree.{Tree};
ghost use Rattle.cxl_commands.specs.Answers.{ComesTo};
ghost use Rattle.cxl_commands.specs.Stopped.{IsStopped};
ghost use Rattle.cxl_commands.specs.Form as forms;
ghost use Rattle.cxl_commands.specs.Readings.{ByTree, AreKnown};
ghost use Rattle.cxl_commands.specs.RunByFiles.{EachRunByFiles};
ghost use Rattle.cxl_commands.specs.commands.Plan.{plan_outcome, refusal_outcome, IsPlanned, IsPlanText, IsRefusalText};

use cxl_cedt::one_reading;
use cxl_image::one_image_reading;
use cxl_inputs::{Outcome, OwnedHost, Status, Stop, fetch_reset_host};
use cxl_io::{Fetch, Memory};
use cxl_model::Plan;
use cxl_reply::Reply;
use cxl_request::{asked_plan, lines_have_a_plan_or_none};
use cxl_script::Create;
use cxl_text::{put_plan, put_reply};
use cxl_topo::Topo;
use cxl_topofile::one_topology_reading;
use std::alloc::Global;

/// The plan of a create line's region over a host after reset, or why there is none. No register is read or
/// written. Takes memory.
pub fn plan<F: Fetch>(
    alloc: Global,
    cedt: &str,
    topo: &str,
    create: &Create,
    files: &mut F,
) -> Result<Outcome, Stop>
    requires code { StatesGranCode create.now }
    ensures comes { ComesTo (forms.Plan cedt.now topo.now create.now) (F.state files.old) (F.state files.new) result }
    ensures counts { (F.state files.old).faults ≤ (F.state files.new).faults }
    ensures told { (F.state files.new).told ≡ (F.state files.old).told }
{
    let host = fetch_reset_host(alloc, cedt, topo, files)?;
    let outcome = line_outcome(alloc, &host, create);
    drop(host);
    Ok(outcome?)
}

/// What a create line comes to over a host. Takes memory.
fn line_outcome(alloc: Global, host: &OwnedHost, create: &Create) -> Result<Outcome, Memory>
    requires system { IsSystem (system_of host.now.image host.now.topo host.now.windows.items) }
    requires accepted { IsAccepted (system_of host.now.image host.now.topo host.now.windows.items) }
    requires code { StatesGranCode create.now }
    ensures { IfOk result
        (IsPlanned (system_of host.now.image host.now.topo host.now.windows.items) create.now) }
{
    let lent = cxl_model::Host {
        image: &host.image,
        topo: &host.topo,
        windows: &host.windows,
    };
    match asked_plan(alloc, create, &lent)? {
        Ok(plan) => {
            let outcome = told(alloc, &plan, &host.topo);
            drop(plan);
            outcome
        }
        Err(refusal) => {
            let outcome = refused(alloc, &refusal, &host.topo);
            drop(refusal);
            outcome
        }
    }
}

/// The lines of a plan.
fn told(alloc: Global, plan: &Plan, topo: &Topo) -> Result<Outcome, Memory>
    requires { IsToldPlan topo.now.nodes plan.now }
    ensures { IfOk result (λ outcome. outcome ≡ plan_outcome topo.now.nodes plan.now) }
{
    let mut text = Vec::new(alloc);
    put_plan(&mut text, plan, topo)?;
    Ok(Outcome::made(Status::Done, text))
}

/// The lines of a refusal.
fn refused(alloc: Global, reply: &Reply, topo: &Topo) -> Result<Outcome, Memory>
    requires { IsTold topo.now.nodes reply.now }
    ensures { IfOk result (λ outcome. outcome ≡ refusal_outcome topo.now.nodes reply.now) }
{
    let mut text = Vec::new(alloc);
    put_reply(reply, topo, &mut text)?;
    Ok(Outcome::made(Status::Refused, text))
}

/// Laws of each run of `plan`.
pub fn plan_statuses()
    // With status 0 it writes exactly the lines of a legal plan for what the line asks, over the host of the
    // two files after reset: in the first window that takes the request, at the least base there. Where the
    // line states ways, it is over the endpoints that are picked, and no set of so many endpoints has a legal
    // plan in an earlier window.
    ensures planned { EachRunByFiles (λ form old new status. (cedt topo : List ℕ) (create : Create)
        → form ≡ forms.Plan cedt topo create → status ≡ Status.Done
        → (text : List ℕ) × IsPlanText old.files.told cedt topo create text × Takes old.out new.out text) }
    // With status 8 it writes exactly why there is none: the first name on the line that is no endpoint's, or
    // the first fault of the request; or, where the line states ways, that no region has so many or no such
    // size, or that no set of so many endpoints has a legal plan.
    ensures refused { EachRunByFiles (λ form old new status. (cedt topo : List ℕ) (create : Create)
        → form ≡ forms.Plan cedt topo create → status ≡ Status.Refused
        → (text : List ℕ) × IsRefusalText old.files.told cedt topo create text × Takes old.out new.out text) }

    // Where the files are known and have a reading, status 0 comes exactly where every name is an endpoint's
    // and there is a legal plan, or some set of so many endpoints as the line states has one; and status 8
    // exactly where that is not so, unless the run stops before.
    ensures only_planned { EachRunByFiles (λ form old new status. (cedt topo : List ℕ) (create : Create)
        (table : CedtFields) (tree : Tree) → form ≡ forms.Plan cedt topo create
        → AreKnown form old.files.told (ByTree table tree) → HasPlan (reset_host_of table tree) create
        → (status ≡ Status.Done) ⊎ IsStopped status old new) }
    ensures only_refused { EachRunByFiles (λ form old new status. (cedt topo : List ℕ) (create : Create)
        (table : CedtFields) (tree : Tree) → form ≡ forms.Plan cedt topo create
        → AreKnown form old.files.told (ByTree table tree) → HasNoPlan (reset_host_of table tree) create
        → (status ≡ Status.Refused) ⊎ IsStopped status old new) }
{
    one_reading();
    one_topology_reading();
    one_image_reading();
    lines_have_a_plan_or_none();
}
