//! Laws of plans, each the contract of a function that does nothing.

ghost use Rattle.std.specs.Prelude.{◌≡◌, ◌≢◌, ℕ, true, false, Some, None, if◌then◌else◌, Contains};
ghost use Rattle.cxl_topo.specs.Tree.{is_endpoint_at};
ghost use Rattle.cxl_regs.specs.declared.reading.Range.{Range};
ghost use Rattle.cxl_regs.specs.Reading.{committed_count};
ghost use Rattle.cxl_span.specs.Spans.{span_start_of};
ghost use Rattle.cxl_window.specs.Fields.{WindowFields};
ghost use Rattle.cxl_model.specs.declared.plan.Plan.{Plan};
ghost use Rattle.cxl_model.specs.declared.plan.Row.{Row};
ghost use Rattle.cxl_model.specs.declared.request.Request.{Request};
ghost use Rattle.cxl_model.specs.System.{System, IsSystem, decoders_at};
ghost use Rattle.cxl_model.specs.Ranges.{serves, decoder_for, index_for, window_for, span_kind};
ghost use Rattle.cxl_model.specs.Changes.{HaveSameDecoders, AddsOneRange};
ghost use Rattle.cxl_model.specs.Accepted.{IsAccepted, KeepsBlocks};
ghost use Rattle.cxl_model.specs.Regions.{region_range};
ghost use Rattle.cxl_model.specs.Plans.{AreRowsOf, IsRow, IsLegalPlanIn, IsLegalPlan, committed_row, with_rows};
ghost use Rattle.cxl_legal.specs.Used.{AreEndpoints, HasBytePorts, is_used};
ghost use Rattle.cxl_legal.specs.Endpoints.{FitsEndpoints};
ghost use Rattle.cxl_legal.specs.Windows.{FitsWindow};
ghost use Rattle.cxl_legal.specs.Bases.{FitsBase};
ghost use Rattle.cxl_legal.specs.Stated.{has_row, stated_row, stated_rows, stated_start, planned_range, IsStatedPlan, Fits};

use cxl_model::{
    accepted_where_whole, endpoints_lie_evenly, one_window, regions_stay, slots_are_endpoints,
};
use cxl_span::{committed_stand_first, ranges_rise, spans_are_whole, spans_lie_in_partitions};
use cxl_topo::tree_laws;

/// A law of plans: where one is legal over an accepted image, the request keeps all that it has to, in its
/// endpoints, in that window and at that base.
pub fn legal_plans_fit()
    // The endpoints differ, are 1, 2, 3, 4, 6, 8, 12 or 16, and lie evenly under used ports and bridges; each used
    // node has a decoder left, and each endpoint room for its share.
    ensures endpoints { (s : System) (request : Request) (w : WindowFields) (plan : Plan) → IsSystem s
        → HasBytePorts s.nodes → IsAccepted s → AreEndpoints s request → IsLegalPlanIn s request w plan
        → FitsEndpoints s request }
    // The window can be used, permits the kind, is open to plans, targets exactly the used bridges and agrees with a
    // stated granularity; and each used node can select on the bits and have the ways that it would need.
    ensures window { (s : System) (request : Request) (w : WindowFields) (plan : Plan) → IsSystem s
        → HasBytePorts s.nodes → IsAccepted s → AreEndpoints s request → IsLegalPlanIn s request w plan
        → FitsWindow s request w }
    // The base lies in the window at its step, past all that is committed in the used nodes, with the region's end
    // inside.
    ensures base { (s : System) (request : Request) (w : WindowFields) (plan : Plan) → IsSystem s
        → HasBytePorts s.nodes → IsAccepted s → AreEndpoints s request → IsLegalPlanIn s request w plan
        → FitsBase s request w plan.found.base }
{
    tree_laws();
    ranges_rise();
    endpoints_lie_evenly();
    slots_are_endpoints();
}

/// A law of plans: the committed ranges of the image with a legal plan's rows committed are those of the image before
/// and one more, the plan's.
pub fn legal_plans_add_one_range()
    ensures { (s : System) (request : Request) (plan : Plan) → IsSystem s → IsLegalPlan s request plan
        → AddsOneRange s (with_rows s plan.rows) (region_range plan.found) }
{}

/// A law of plans: where a request keeps all that it has to over an accepted image, the rows that are stated for it
/// are one for each used node that does not forward, their range is new, and with them every block keeps K1 to K8. The
/// decoders of every other range are as they were; the new range lies in the window, and its spans in the memory of
/// the kind, where they are stated to start.
pub fn stated_rows_keep_blocks()
    ensures rows { (s : System) (request : Request) (w : WindowFields) (base : ℕ) → Fits s request w base
        → AreRowsOf s request (stated_rows s request w base) }
    ensures each { (s : System) (request : Request) (w : WindowFields) (base : ℕ) (row : Row)
        → Fits s request w base → Contains (stated_rows s request w base) row
        → IsRow s (planned_range request base) row }
    ensures new { (s : System) (request : Request) (w : WindowFields) (base n : ℕ) → Fits s request w base
        → serves s (planned_range request base) n ≡ false }
    ensures decoders { (s : System) (request : Request) (w : WindowFields) (base n : ℕ) → Fits s request w base
        → decoder_for (with_rows s (stated_rows s request w base)) (planned_range request base) n
        ≡ (if has_row s request n then Some (committed_row (stated_row s request w base n)) else None) }
    ensures indices { (s : System) (request : Request) (w : WindowFields) (base n : ℕ) → Fits s request w base
        → index_for (with_rows s (stated_rows s request w base)) (planned_range request base) n
        ≡ (if has_row s request n then Some (committed_count (decoders_at s n)) else None) }
    ensures blocks { (s : System) (request : Request) (w : WindowFields) (base : ℕ) → Fits s request w base
        → KeepsBlocks (with_rows s (stated_rows s request w base)) }
    ensures system { (s : System) (request : Request) (w : WindowFields) (base : ℕ) → Fits s request w base
        → IsSystem (with_rows s (stated_rows s request w base)) }
    ensures others { (s : System) (request : Request) (w : WindowFields) (base : ℕ) (r : Range)
        → Fits s request w base → r ≢ planned_range request base
        → HaveSameDecoders s (with_rows s (stated_rows s request w base)) r }
    ensures window { (s : System) (request : Request) (w : WindowFields) (base : ℕ) → Fits s request w base
        → window_for (with_rows s (stated_rows s request w base)) (planned_range request base) ≡ Some w }
    ensures starts { (s : System) (request : Request) (w : WindowFields) (base m : ℕ) → Fits s request w base
        → is_endpoint_at s.nodes m ≡ true → is_used s request m ≡ true
        → span_start_of (decoders_at (with_rows s (stated_rows s request w base)) m) (committed_count (decoders_at s m))
        ≡ stated_start s request m }
    ensures kinds { (s : System) (request : Request) (w : WindowFields) (base m : ℕ) → Fits s request w base
        → is_endpoint_at s.nodes m ≡ true → is_used s request m ≡ true
        → span_kind (with_rows s (stated_rows s request w base)) m (committed_count (decoders_at s m))
        ≡ request.kind }
{
    tree_laws();
    committed_stand_first();
    ranges_rise();
    spans_are_whole();
    spans_lie_in_partitions();
    one_window();
}

/// A law of plans: where a request keeps all that it has to over an accepted image, the image with its stated rows
/// committed is accepted, each plan that is stated for it is legal, and there is one.
pub fn fitting_plans_are_legal()
    ensures accepted { (s : System) (request : Request) (w : WindowFields) (base : ℕ) → Fits s request w base
        → IsAccepted (with_rows s (stated_rows s request w base)) }
    ensures legal { (s : System) (request : Request) (w : WindowFields) (base : ℕ) (plan : Plan)
        → Fits s request w base → IsStatedPlan s request w base plan → IsLegalPlanIn s request w plan }
    ensures there { (s : System) (request : Request) (w : WindowFields) (base : ℕ) → Fits s request w base
        → (plan : Plan) × IsStatedPlan s request w base plan }
{
    tree_laws();
    committed_stand_first();
    ranges_rise();
    spans_are_whole();
    one_window();
    accepted_where_whole();
    regions_stay();
    stated_rows_keep_blocks();
}
