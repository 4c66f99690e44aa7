//! Laws of create lines, each the contract of a function that does nothing.

ghost use Rattle.std.specs.Prelude.{◌≡◌, ◌⊎◌, ℕ, List, None, Ok, Err};
ghost use Rattle.cxl_legal.specs.Used.{HasBytePorts};
ghost use Rattle.cxl_model.specs.Accepted.{IsAccepted};
ghost use Rattle.cxl_model.specs.Plans.{IsLegalPlan};
ghost use Rattle.cxl_model.specs.System.{System, IsSystem};
ghost use Rattle.cxl_model.specs.declared.plan.Plan.{Plan};
ghost use Rattle.cxl_reply.specs.Plans.{IsToldPlan};
ghost use Rattle.cxl_reply.specs.Conditions.{IsTold};
ghost use Rattle.cxl_reply.specs.declared.reply.Reply.{Reply};
ghost use Rattle.cxl_script.specs.Grammar.{StatesGranCode};
ghost use Rattle.cxl_script.specs.declared.command.Create.{Create};
ghost use Rattle.cxl_request.specs.Plans.{IsPlanFor, IsRefusal, HasPlan, HasNoPlan};
ghost use Rattle.cxl_request.specs.Requests.{request_for, AsksForPlan};

use cxl_legal::stated_rows_keep_blocks;
use cxl_pick::{answers_hold_of_wants, picked_sets_have_plans};
use cxl_plan::{answers_hold_of_requests, plans_go_by_any_name};
use cxl_reply::findings_are_told;
use cxl_topo::tree_laws;

/// A law of create lines: over an accepted image, a plan that a line is answered is legal. Where the line names its
/// endpoints, or states no granularity but by a code that is one, it is the first and least of its line; a refusal
/// has its cause, and then no plan is legal.
pub fn answers_hold_of_lines()
    ensures legal { (s : System) (create : Create) (plan : Plan) → IsSystem s → HasBytePorts s.nodes → IsAccepted s
        → AsksForPlan s create (Ok plan) → (endpoints : List ℕ) × IsLegalPlan s (request_for create endpoints) plan }
    ensures plan { (s : System) (create : Create) (plan : Plan) → IsSystem s → HasBytePorts s.nodes → IsAccepted s
        → (create.ways ≡ None) ⊎ StatesGranCode create → AsksForPlan s create (Ok plan) → IsPlanFor s create plan }
    ensures refusal { (s : System) (create : Create) (refusal : Reply) → IsSystem s → HasBytePorts s.nodes
        → IsAccepted s → (create.ways ≡ None) ⊎ StatesGranCode create → AsksForPlan s create (Err refusal)
        → IsRefusal s create refusal }
{
    answers_hold_of_requests();
    answers_hold_of_wants();
    picked_sets_have_plans();
    plans_go_by_any_name();
}

/// A law of create lines: one with a plan for it has a plan, one with a refusal has none, and none has both.
pub fn lines_have_a_plan_or_none()
    ensures plan { (s : System) (create : Create) (plan : Plan) → IsPlanFor s create plan → HasPlan s create }
    ensures refusal { (s : System) (create : Create) (refusal : Reply) → IsRefusal s create refusal
        → HasNoPlan s create }
    ensures one { (s : System) (create : Create) → HasPlan s create → HasNoPlan s create → ⊥ }
{}

/// A law of create lines: over an accepted image, what a line is answered can be told.
pub fn answered_lines_can_be_told()
    ensures plan { (s : System) (create : Create) (plan : Plan) → IsSystem s → HasBytePorts s.nodes → IsAccepted s
        → AsksForPlan s create (Ok plan) → IsToldPlan s.nodes plan }
    ensures refusal { (s : System) (create : Create) (refusal : Reply) → IsSystem s → HasBytePorts s.nodes
        → IsAccepted s → AsksForPlan s create (Err refusal) → IsTold s.nodes refusal }
{
    tree_laws();
    stated_rows_keep_blocks();
    findings_are_told();
    answers_hold_of_requests();
    answers_hold_of_wants();
}
