//! Laws of reasons, each the contract of a function that does nothing.

ghost use Rattle.std.specs.Prelude.{◌≡◌, ℕ, ◌%◌, ◌≤◌, map, true, List, slice_get, Some, is_some};
ghost use Rattle.cxl_window.specs.Fields.{WindowFields};
ghost use Rattle.cxl_model.specs.System.{System};
ghost use Rattle.cxl_legal.specs.Sizes.{IsSizeFor};
ghost use Rattle.cxl_pick.specs.declared.want.Want.{Want};
ghost use Rattle.cxl_pick.specs.Picking.{HasPlanIn, IsWantedSize, all_given, can_take, given_in};
ghost use Rattle.cxl_reason.specs.declared.reason.SetReason.{SetReason};
ghost use Rattle.cxl_reason.specs.Reasons.{HasCodes, HasNoPlanIn, IsAskedOf, SaysOfSets, with_size};
ghost use Rattle.cxl_reason.specs.inner.Asked.{HasResetBlocks, after_reset, is_open_to, least_want};
ghost use Rattle.cxl_reason.specs.inner.Gifts.{at_target};

use cxl_legal::{fitting_plans_are_legal, legal_plans_fit};
use cxl_model::reset_hosts_are_accepted;
use cxl_pick::{fitting_sets_are_given, given_sets_fit};
use cxl_topo::tree_laws;

/// A law of reasons: some set has a legal plan in a window exactly where each target bridge gives something; so at any
/// lower size where at one.
pub(crate) fn plans_stand_where_bridges_give()
    ensures plan { (s : System) (want : Want) (w : WindowFields) → IsAskedOf s want → IsWantedSize want
        → slice_get s.windows w.index ≡ Some w → is_some (given_in s want w) ≡ true
        → (set : List ℕ) × HasPlanIn s want w set }
    ensures given { (s : System) (want : Want) (w : WindowFields) (set : List ℕ) → IsAskedOf s want
        → HasPlanIn s want w set → is_some (given_in s want w) ≡ true }
    ensures size { (s : System) (want : Want) (w : WindowFields) (set : List ℕ) → IsAskedOf s want
        → HasPlanIn s want w set → IsWantedSize want }
    ensures lower { (s : System) (want : Want) (w : WindowFields) (size : ℕ) → IsAskedOf s want → IsWantedSize want
        → slice_get s.windows w.index ≡ Some w → IsSizeFor size want.ways → size ≤ want.size
        → is_some (given_in s want w) ≡ true → is_some (given_in s (with_size want size) w) ≡ true }
{
    tree_laws();
    given_sets_fit();
    fitting_sets_are_given();
    legal_plans_fit();
    fitting_plans_are_legal();
}

/// A law of reasons: in a window that can be taken, some set has codes exactly where each target bridge gives something
/// for its share of the ways after reset, at the least size.
pub(crate) fn codes_stand_where_bridges_give()
    ensures given { (s : System) (want : Want) (w : WindowFields) (set : List ℕ) → IsAskedOf s want → HasResetBlocks s
        → slice_get s.windows w.index ≡ Some w → is_open_to want w ≡ true → HasCodes s want w set
        → (want.ways % w.ways ≡ 0) × (is_some (all_given (map (at_target (after_reset s) (least_want want) w 0) w.targets)) ≡ true) }
    ensures codes { (s : System) (want : Want) (w : WindowFields) → IsAskedOf s want → HasResetBlocks s
        → slice_get s.windows w.index ≡ Some w → is_open_to want w ≡ true → want.ways % w.ways ≡ 0
        → is_some (all_given (map (at_target (after_reset s) (least_want want) w 0) w.targets)) ≡ true
        → (set : List ℕ) × HasCodes s want w set }
{
    tree_laws();
    reset_hosts_are_accepted();
    given_sets_fit();
    fitting_sets_are_given();
}

/// A law of reasons: a set with a legal plan has codes; and where a reason holds of a window, no set has a legal plan there.
pub fn reasons_hold_of_all_sets()
    ensures codes { (s : System) (want : Want) (w : WindowFields) (set : List ℕ) → IsAskedOf s want
        → HasPlanIn s want w set → HasCodes s want w set }
    ensures none { (s : System) (want : Want) (w : WindowFields) (reason : SetReason) → IsAskedOf s want
        → SaysOfSets s want w reason → HasNoPlanIn s want w }
{
    tree_laws();
    legal_plans_fit();
}
