//! Laws of picking, each the contract of a function that does nothing.

ghost use Rattle.std.specs.Prelude.{◌≡◌, ◌≢◌, ℕ, ◌≤◌, true, List, length, slice_get, Some, IfSome, Ok, Err};
ghost use Rattle.cxl_enc.specs.Codes.{is_ways};
ghost use Rattle.cxl_window.specs.Fields.{WindowFields};
ghost use Rattle.cxl_model.specs.System.{System, IsSystem};
ghost use Rattle.cxl_model.specs.Accepted.{IsAccepted};
ghost use Rattle.cxl_legal.specs.Used.{AreEndpoints, HasBytePorts};
ghost use Rattle.cxl_legal.specs.Endpoints.{IsSize};
ghost use Rattle.cxl_legal.specs.Stated.{Fits};
ghost use Rattle.cxl_pick.specs.declared.want.Want.{Want};
ghost use Rattle.cxl_pick.specs.declared.fault.PickFault.{PickFault};
ghost use Rattle.cxl_pick.specs.declared.fault.PickFault.TheVariants as faults;
ghost use Rattle.cxl_pick.specs.Picking.{FitsFirst, NothingFits, PlansFirst, NothingPlans, asked, latest_start, given_in, AreInOrder, IsWantedSize, IsPicked, TellsPickFault};
ghost use Rattle.cxl_pick.specs.Picked.{picked};

use cxl_legal::{fitting_plans_are_legal, legal_plans_fit};
use cxl_topo::tree_laws;

/// A law of picking: what the target bridges of a window give is a set of as many endpoints as are wanted, which
/// keeps all that a request has to at the window's latest start.
pub fn given_sets_fit()
    ensures ways { (s : System) (want : Want) (w : WindowFields) (given set : List ℕ) → IsSystem s
        → HasBytePorts s.nodes → IsAccepted s → is_ways want.ways ≡ true → slice_get s.windows w.index ≡ Some w
        → given_in s want w ≡ Some given → AreInOrder given set → length set ≡ want.ways }
    ensures fits { (s : System) (want : Want) (w : WindowFields) (start : ℕ) (given set : List ℕ) → IsSystem s
        → HasBytePorts s.nodes → IsAccepted s → is_ways want.ways ≡ true → IsSize (asked want set)
        → IfSome want.gran (λ code. code ≤ 6) → slice_get s.windows w.index ≡ Some w → given_in s want w ≡ Some given → AreInOrder given set
        → latest_start want w ≡ Some start → Fits s (asked want set) w start }
{
    tree_laws();
}

/// A law of picking: in a window in which some set of so many endpoints keeps all that a request has to, each target
/// bridge gives something.
pub fn fitting_sets_are_given()
    ensures { (s : System) (want : Want) (w : WindowFields) (set : List ℕ) (base : ℕ)
        → length set ≡ want.ways → Fits s (asked want set) w base
        → (given : List ℕ) × (given_in s want w ≡ Some given) }
{
    tree_laws();
}

/// A law of picking: a set that keeps all that a request has to in the first window in which any does has a legal plan
/// there, and no set has one in an earlier window; and where none keeps it, none has a legal plan.
pub fn fitting_sets_have_plans()
    ensures first { (s : System) (want : Want) (w : WindowFields) (set : List ℕ) → length set ≡ want.ways
        → FitsFirst s want w set → PlansFirst s want w set }
    ensures none { (s : System) (want : Want) → IsSystem s → HasBytePorts s.nodes → IsAccepted s
        → NothingFits s want → NothingPlans s want }
{
    legal_plans_fit();
    fitting_plans_are_legal();
}

/// A law of picking: what is wanted comes to the set that is picked, and else to the fault that is told.
pub fn wants_come_to_answers()
    ensures set { (s : System) (want : Want) (w : WindowFields) (set : List ℕ) → IsSystem s → is_ways want.ways ≡ true
        → IsWantedSize want → IsPicked s want w set → picked s want ≡ Ok set }
    ensures fault { (s : System) (want : Want) (fault : PickFault) → TellsPickFault s want fault → fault ≢ faults.Memory
        → picked s want ≡ Err fault }
{
    tree_laws();
}

/// A law of picking: a set that is picked is one of endpoints, and is what is given in the first
/// window in which each target bridge gives something; what a fault says holds.
pub fn answers_hold_of_wants()
    ensures ways { (s : System) (want : Want) (set : List ℕ) → IsSystem s → picked s want ≡ Ok set
        → is_ways want.ways ≡ true }
    ensures size { (s : System) (want : Want) (set : List ℕ) → IsSystem s → picked s want ≡ Ok set
        → IsWantedSize want }
    ensures set { (s : System) (want : Want) (set : List ℕ) → IsSystem s → picked s want ≡ Ok set
        → (w : WindowFields) × IsPicked s want w set }
    ensures endpoints { (s : System) (want : Want) (set : List ℕ) → IsSystem s → HasBytePorts s.nodes
        → picked s want ≡ Ok set → AreEndpoints s (asked want set) }
    ensures fault { (s : System) (want : Want) (fault : PickFault) → IsSystem s → picked s want ≡ Err fault
        → TellsPickFault s want fault }
    // Want of memory is nothing that a want comes to.
    ensures real { (s : System) (want : Want) → picked s want ≢ Err faults.Memory }
{
    tree_laws();
}

/// A law of picking: over an accepted image, a set that is picked has a legal plan in the window of the pick, and no set
/// of so many endpoints has one in an earlier window; where none is picked, none has a legal plan in any.
pub fn picked_sets_have_plans()
    ensures first { (s : System) (want : Want) (w : WindowFields) (set : List ℕ) → IsSystem s → HasBytePorts s.nodes
        → IsAccepted s → IfSome want.gran (λ code. code ≤ 6) → picked s want ≡ Ok set → IsPicked s want w set
        → PlansFirst s want w set }
    ensures none { (s : System) (want : Want) (fault : PickFault) → IsSystem s → HasBytePorts s.nodes → IsAccepted s
        → picked s want ≡ Err fault → NothingPlans s want }
    ensures window { (s : System) (want : Want) (w v : WindowFields) (set other : List ℕ) → IsPicked s want w set
        → IsPicked s want v other → w ≡ v }
{
    tree_laws();
    legal_plans_fit();
    fitting_sets_are_given();
    fitting_sets_have_plans();
}
