//! What the definitions say of plans over worked hosts.

ghost use Rattle.std.specs.Prelude.{◌≡◌, true, false, [], ◌∷◌};
ghost use Rattle.cxl_model.specs.declared.request.Request.{Request};
ghost use Rattle.cxl_model.specs.Plans.{IsLegalPlanIn};
ghost use Rattle.cxl_worked.specs.ExampleRegions.{window_of_three};
ghost use Rattle.cxl_worked.specs.Examples.{four_ways, forwarding_bridges, six_ways, two_bridges, window_of_both};
ghost use Rattle.cxl_legal.specs.Bases.{last_end};
ghost use Rattle.cxl_legal.specs.Endpoints.{is_uneven};
ghost use Rattle.cxl_worked.specs.ExamplePlans.{after_reset, blocks_planned, of_ram, plan_of_two, rows_of_two};
ghost use Rattle.cxl_legal.specs.Stated.{stated_rows, stated_start};
ghost use Rattle.cxl_legal.specs.Windows.{has_used_bridges};

use crate::examples::{regions_on_examples, rules_on_examples};

/// A law of plans: the rows that are stated for the endpoints of a worked image's region, in any order, over its host
/// after reset, leave that image. And what is said of a further request over one of them.
pub fn stated_rows_on_examples()
    ensures two { (request : Request)
        → blocks_planned two_bridges (of_ram request 0x20000000 (3 ∷ 2 ∷ [])) window_of_both ≡ two_bridges.blocks }
    ensures forwarding { (request : Request)
        → blocks_planned forwarding_bridges (of_ram request 0x20000000 (3 ∷ 2 ∷ [])) window_of_both ≡ forwarding_bridges.blocks }
    ensures four { (request : Request)
        → blocks_planned four_ways (of_ram request 0x40000000 (5 ∷ 3 ∷ 2 ∷ 4 ∷ [])) window_of_both ≡ four_ways.blocks }
    ensures six { (request : Request)
        → blocks_planned six_ways (of_ram request 0x60000000 (8 ∷ 3 ∷ 5 ∷ 4 ∷ 6 ∷ 7 ∷ [])) window_of_three ≡ six_ways.blocks }
    ensures next_base { last_end six_ways 0 ≡ 0x160000000 }
    ensures next_span { (request : Request) → stated_start six_ways (of_ram request 0x20000000 (4 ∷ [])) 4 ≡ 0x10000000 }
    ensures uneven { (request : Request)
        → is_uneven six_ways (of_ram request 0x40000000 (3 ∷ 4 ∷ 5 ∷ 7 ∷ [])) 1 ≡ true }
    ensures other_bridges { (request : Request)
        → has_used_bridges six_ways (of_ram request 0x40000000 (3 ∷ 4 ∷ 5 ∷ 6 ∷ [])) window_of_three ≡ false }
{}

/// A law of plans: over the reset host with two bridges, the plan for both endpoints with its four rows is legal in the
/// window of both, and these are the rows that are stated.
pub fn legal_plan_on_examples()
    ensures legal { (request : Request) → IsLegalPlanIn (after_reset two_bridges) (of_ram request 0x20000000 (2 ∷ 3 ∷ []))
        window_of_both (plan_of_two request) }
    ensures stated { (request : Request)
        → stated_rows (after_reset two_bridges) (of_ram request 0x20000000 (2 ∷ 3 ∷ [])) window_of_both 0x100000000 ≡ rows_of_two }
{
    rules_on_examples();
    regions_on_examples();
}
