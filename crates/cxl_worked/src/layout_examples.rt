//! What the definitions say of worked images of further layouts: several ways below one target, twelve ways, a switch of
//! one way, ports out of order, both kinds of memory, XOR arithmetic, and an endpoint below a forwarding bridge.

ghost use Rattle.std.specs.Prelude.{◌≡◌, [], ◌∷◌};
ghost use Rattle.cxl_model.specs.Accepted.{IsAccepted, IsFirstBreach};
ghost use Rattle.cxl_model.specs.Chain.{Chain};
ghost use Rattle.cxl_model.specs.Regions.{IsRegionIn, Carries, target_position};
ghost use Rattle.cxl_model.specs.System.{IsSystem};
ghost use Rattle.cxl_worked.specs.Examples.{window_of_both};
ghost use Rattle.cxl_worked.specs.ExampleRegions.{region_of_two, route, step, with_map};
ghost use Rattle.cxl_worked.specs.ExampleLayouts.{both_kinds, forwarding_alone, one_bridge, ports_out_of_order, region_below_one, region_of_pmem, region_of_twelve, region_out_of_order, region_past_switch, route_by, step_by, twelve_ways, two_by_map, window_of_one, window_of_twelve, with_switch, without_pmem};

use cxl_model::{accepted_where_whole, breaches_lie_in_images};
use cxl_topo::tree_laws;

/// A law of systems: these images stand over legal trees, with blocks and windows as the program makes them.
pub fn layouts_are_systems()
    ensures one { IsSystem one_bridge }
    ensures out_of_order { IsSystem ports_out_of_order }
    ensures twelve { IsSystem twelve_ways }
    ensures switch { IsSystem with_switch }
    ensures kinds { IsSystem both_kinds }
    ensures by_map { IsSystem two_by_map }
{
    tree_laws();
}

/// A law of rules: which of these images are accepted, and what each other one breaks first, by its rule, its node
/// and its decoder.
pub fn rules_on_layouts()
    ensures one_bridge { IsAccepted one_bridge }
    ensures ports_out_of_order { IsAccepted ports_out_of_order }
    ensures twelve_ways { IsAccepted twelve_ways }
    ensures with_switch { IsAccepted with_switch }
    ensures both_kinds { IsAccepted both_kinds }
    ensures two_by_map { IsAccepted two_by_map }
    ensures without_pmem { IsFirstBreach without_pmem 9 1 1 }
    ensures forwarding_alone { IsFirstBreach forwarding_alone 10 2 0 }
{
    breaches_lie_in_images();
}

/// A law of regions: those of these images, with the span of each slot, and two of the targets.
pub fn regions_on_layouts()
    ensures one { IsRegionIn one_bridge window_of_one region_below_one }
    ensures out_of_order { IsRegionIn ports_out_of_order window_of_one region_out_of_order }
    ensures twelve { IsRegionIn twelve_ways window_of_twelve region_of_twelve }
    ensures switch { IsRegionIn with_switch window_of_both region_past_switch }
    ensures pmem { IsRegionIn both_kinds window_of_one region_of_pmem }
    ensures by_map { IsRegionIn two_by_map (with_map window_of_both) region_of_two }
    ensures third_target { target_position window_of_twelve 8 ≡ 2 }
    ensures last_target { target_position window_of_twelve 11 ≡ 5 }
{
    rules_on_layouts();
    accepted_where_whole();
}

/// A law of regions: to which byte of which device they carry some addresses.
pub fn carried_on_layouts()
    ensures one { Carries region_below_one window_of_one 0x1000007ff 2 0x3ff }
    ensures one_next_turn { Carries region_below_one window_of_one 0x100000800 1 0x400 }
    ensures out_of_order { Carries region_out_of_order window_of_one 0x100000100 1 0 }
    ensures twelve { Carries region_of_twelve window_of_twelve 0x100000b00 17 0 }
    ensures twelve_by_port { Carries region_of_twelve window_of_twelve 0x100000600 7 0 }
    ensures pmem { Carries region_of_pmem window_of_one 0x110000010 1 0x40000010 }
{}

/// A law of chains: where the decoders of these images lead some addresses.
pub fn chains_on_layouts()
    ensures one { Chain one_bridge 0x1000007ff (route 0 (step 0 1 ∷ []) 2 0x3ff) }
    ensures out_of_order { Chain ports_out_of_order 0x100000000 (route 0 (step 0 0 ∷ []) 2 0) }
    ensures out_of_order_next { Chain ports_out_of_order 0x100000100 (route 0 (step 0 1 ∷ []) 1 0) }
    ensures twelve { Chain twelve_ways 0x100000b00 (route 5 (step 5 1 ∷ []) 17 0) }
    ensures switch { Chain with_switch 0x100000200 (route 0 (step 0 0 ∷ step 2 0 ∷ []) 3 0x100) }
    ensures pmem { Chain both_kinds 0x110000010 (route_by 1 0x110000000 0 (step_by 1 0 0 ∷ []) 1 0x40000010) }
    ensures by_map { Chain two_by_map 0x100004000 (route 1 (step 1 0 ∷ []) 3 0x2000) }
{}
