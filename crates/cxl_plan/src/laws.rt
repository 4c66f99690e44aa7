//! Laws of plans, each the contract of a function that does nothing.

ghost use Rattle.std.specs.Prelude.{◌≡◌, ◌≢◌, ℕ, List, Ok, Err};
ghost use Rattle.std.specs.List.Sorted.{IsPermutation};
ghost use Rattle.cxl_model.specs.declared.request.Request.{Request};
ghost use Rattle.cxl_model.specs.declared.plan.Plan.{Plan};
ghost use Rattle.cxl_model.specs.declared.plan.PlanFault.{PlanFault};
ghost use Rattle.cxl_model.specs.declared.plan.PlanFault.TheVariants as faults;
ghost use Rattle.cxl_model.specs.System.{System, IsSystem};
ghost use Rattle.cxl_model.specs.Accepted.{IsAccepted};
ghost use Rattle.cxl_model.specs.Plans.{IsLegalPlan, IsLegalPlanIn};
ghost use Rattle.cxl_window.specs.Fields.{WindowFields};
ghost use Rattle.cxl_legal.specs.Used.{AreEndpoints, HasBytePorts};
ghost use Rattle.cxl_legal.specs.Endpoints.{FitsEndpoints};
ghost use Rattle.cxl_plan.specs.Faults.{IsFirstPlan, IsFirstPlanFault, IsLeastPlan};
ghost use Rattle.cxl_plan.specs.Planned.{planned};

use cxl_legal::{fitting_plans_are_legal, legal_plans_fit};
use cxl_topo::tree_laws;

/// A law of plans: a request comes to the plan that is stated in the first window that takes it, where it keeps all
/// that it has to in its nodes, and else to its first fault.
pub fn requests_come_to_answers()
    ensures plan { (s : System) (request : Request) (plan : Plan) → IsSystem s → AreEndpoints s request
        → FitsEndpoints s request → IsFirstPlan s request plan → planned s request ≡ Ok plan }
    ensures fault { (s : System) (request : Request) (fault : PlanFault) → IsSystem s → AreEndpoints s request
        → IsFirstPlanFault s request fault → planned s request ≡ Err fault }
{
    tree_laws();
}

/// A law of plans: over an accepted image, a plan to which a request comes is legal, is the one that is stated in the
/// first window that takes it, and no legal plan stands before it; a fault to which it comes is the first that holds,
/// and then no plan is legal.
pub fn answers_hold_of_requests()
    ensures endpoints { (s : System) (request : Request) (plan : Plan) → IsSystem s → HasBytePorts s.nodes
        → IsAccepted s → AreEndpoints s request → planned s request ≡ Ok plan → FitsEndpoints s request }
    ensures plan { (s : System) (request : Request) (plan : Plan) → IsSystem s → HasBytePorts s.nodes
        → IsAccepted s → AreEndpoints s request → planned s request ≡ Ok plan → IsFirstPlan s request plan }
    ensures legal { (s : System) (request : Request) (plan : Plan) → IsSystem s → HasBytePorts s.nodes
        → IsAccepted s → AreEndpoints s request → planned s request ≡ Ok plan → IsLegalPlan s request plan }
    ensures least { (s : System) (request : Request) (plan : Plan) → IsSystem s → HasBytePorts s.nodes
        → IsAccepted s → AreEndpoints s request → planned s request ≡ Ok plan → IsLeastPlan s request plan }
    ensures fault { (s : System) (request : Request) (fault : PlanFault) → IsSystem s → HasBytePorts s.nodes
        → IsAccepted s → AreEndpoints s request → planned s request ≡ Err fault → IsFirstPlanFault s request fault }
    ensures none { (s : System) (request : Request) (fault : PlanFault) → IsSystem s → HasBytePorts s.nodes
        → IsAccepted s → AreEndpoints s request → planned s request ≡ Err fault
        → (plan : Plan) → IsLegalPlan s request plan → ⊥ }
{
    tree_laws();
    legal_plans_fit();
    fitting_plans_are_legal();
}

/// A law of plans: a legal plan of a request is one under any name.
pub fn plans_go_by_any_name()
    ensures { (s : System) (request : Request) (w : WindowFields) (plan : Plan) (name : List ℕ)
        → IsLegalPlanIn s request w plan
        → IsLegalPlanIn s (record request { name = name }) w (record plan { name = name }) }
{}

/// A law of plans: the order of a request's endpoints does not matter. In any order it comes to the same plan, or to the
/// same fault; only where endpoints repeat, another of them may be the first that does so.
pub fn endpoints_stand_in_any_order()
    ensures plan { (s : System) (request : Request) (endpoints : List ℕ) (plan : Plan)
        → IsPermutation request.endpoints endpoints → planned s request ≡ Ok plan
        → planned s (record request { endpoints = endpoints }) ≡ Ok plan }
    ensures fault { (s : System) (request : Request) (endpoints : List ℕ) (fault : PlanFault)
        → IsPermutation request.endpoints endpoints → ((m : ℕ) → fault ≢ faults.Repeat m)
        → planned s request ≡ Err fault → planned s (record request { endpoints = endpoints }) ≡ Err fault }
    ensures repeats { (s : System) (request : Request) (endpoints : List ℕ) (m : ℕ)
        → IsPermutation request.endpoints endpoints → planned s request ≡ Err (faults.Repeat m)
        → (n : ℕ) × (planned s (record request { endpoints = endpoints }) ≡ Err (faults.Repeat n)) }
{}
