//! What the definitions say of worked images: which of them are accepted, which regions they have, and where
//! an address goes in them.

ghost use Rattle.std.specs.Prelude.{[], ◌∷◌};
ghost use Rattle.cxl_model.specs.declared.chain.Miss.TheVariants.{NoWindow, NoDecoder};
ghost use Rattle.cxl_model.specs.Accepted.{IsAccepted, IsFirstBreach};
ghost use Rattle.cxl_model.specs.Chain.{Chain, Missed};
ghost use Rattle.cxl_worked.specs.ExampleRegions.{region_of_two, region_of_four, region_of_six, region_by_map, window_of_three, window_of_six, with_map, route, step};
ghost use Rattle.cxl_worked.specs.Examples.{four_ways, forwarding_bridges, off_thirds, six_ways, two_bridges, window_of_both, with_committed_placeholder, with_error, with_repeated_port, with_stray_range, with_untargeted_bridge, with_window_code, with_wrong_code, without_hb1, without_ram};
ghost use Rattle.cxl_model.specs.Regions.{IsRegionIn, Carries};
ghost use Rattle.cxl_model.specs.System.{IsSystem};

use cxl_model::{accepted_where_whole, breaches_lie_in_images};
use cxl_topo::tree_laws;

/// A law of systems: the accepted images stand over legal trees, with blocks and windows as the program makes
/// them. So what is said of systems is said of something.
pub fn examples_are_systems()
    ensures two { IsSystem two_bridges }
    ensures forwarding { IsSystem forwarding_bridges }
    ensures four { IsSystem four_ways }
    ensures six { IsSystem six_ways }
{
    tree_laws();
}

/// A law of rules: which of the worked images are accepted, and what each other one breaks first, by its
/// rule, its node and its decoder.
pub fn rules_on_examples()
    ensures two_bridges { IsAccepted two_bridges }
    ensures forwarding_bridges { IsAccepted forwarding_bridges }
    ensures six_ways { IsAccepted six_ways }
    ensures four_ways { IsAccepted four_ways }
    ensures with_error { IsFirstBreach with_error 3 3 0 }
    ensures off_thirds { IsFirstBreach off_thirds 9 0 0 }
    ensures without_ram { IsFirstBreach without_ram 9 2 0 }
    ensures without_hb1 { IsFirstBreach without_hb1 10 0 0 }
    ensures with_repeated_port { IsFirstBreach with_repeated_port 10 0 0 }
    ensures with_stray_range { IsFirstBreach with_stray_range 11 2 1 }
    ensures with_untargeted_bridge { IsFirstBreach with_untargeted_bridge 11 1 0 }
    ensures with_committed_placeholder { IsFirstBreach with_committed_placeholder 11 0 0 }
    ensures with_wrong_code { IsFirstBreach with_wrong_code 12 2 0 }
    ensures with_window_code { IsFirstBreach with_window_code 12 0 0 }
{
    breaches_lie_in_images();
}

/// A law of regions: those of the accepted images, with the span of each slot.
pub fn regions_on_examples()
    ensures two { IsRegionIn two_bridges window_of_both region_of_two }
    ensures forwarding { IsRegionIn forwarding_bridges window_of_both region_of_two }
    ensures four { IsRegionIn four_ways window_of_both region_of_four }
    ensures six { IsRegionIn six_ways window_of_three region_of_six }
{
    rules_on_examples();
    accepted_where_whole();
}

/// A law of regions: to which byte of which device they carry some addresses.
pub fn carried_on_examples()
    ensures last_of_chunk { Carries region_of_two window_of_both 0x1000000ff 2 0xff }
    ensures next_chunk { Carries region_of_two window_of_both 0x100000100 3 0 }
    ensures fourth_slot { Carries region_of_six window_of_three 0x100000400 5 0 }
    ensures next_turn { Carries region_of_six window_of_three 0x100000600 3 0x100 }
    ensures by_map { Carries region_of_two (with_map window_of_both) 0x100004000 3 0x2000 }
    ensures by_map_in_thirds { Carries region_by_map (with_map window_of_six) 0x100004200 7 0xb00 }
{}

/// A law of chains: where the decoders of the accepted images lead some addresses.
pub fn chains_on_examples()
    ensures two { Chain two_bridges 0x100000100 (route 1 (step 1 0 ∷ []) 3 0) }
    ensures forwarding { Chain forwarding_bridges 0x100000100 (route 1 [] 3 0) }
    ensures six { Chain six_ways 0x100000600 (route 0 (step 0 0 ∷ []) 3 0x100) }
    ensures six_by_port { Chain six_ways 0x100000300 (route 0 (step 0 1 ∷ []) 4 0) }
    ensures past_region { Chain two_bridges 0x120000000 (Missed (NoDecoder 0)) }
    ensures past_window { Chain two_bridges 0x200000000 (Missed NoWindow) }
{}
