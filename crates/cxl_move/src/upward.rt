//! The host address that a region carries to a byte of a device.

ghost use Rattle.std.specs.Prelude.{IfSome, IfNone};
ghost use Rattle.cxl_window.specs.Fields.{WindowFields};
ghost use Rattle.cxl_model.specs.Bytes.{LiesInSpan};
ghost use Rattle.cxl_model.specs.Regions.{Carries};
ghost use Rattle.cxl_model.specs.System.{System};
ghost use Rattle.cxl_move.specs.Woven.{IsWovenIn, IsWovenSomewhere};

use crate::span_byte;
use cxl_deal::{Weave, gather, region_fills_slots};
use cxl_model::{
    Found, bytes_are_carried_one_to_one, regions_lie_in_windows, slots_are_endpoints,
    weaves_fill_their_regions,
};

/// The host address that the region carries to a byte of an endpoint's device, where it carries one there.
pub fn carried_address(found: &Found, weave: &Weave, endpoint: u32, dpa: u64) -> Option<u64>
    requires { IsWovenSomewhere found.now weave.now }
    ensures some { IfSome result (λ h. (s : System) (w : WindowFields) → IsWovenIn s w found.now weave.now
        → Carries found.now w h endpoint dpa) }
    ensures none { IfNone result (LiesInSpan found.now endpoint dpa → ⊥) }
{
    weaves_fill_their_regions();
    regions_lie_in_windows();
    slots_are_endpoints();
    region_fills_slots();
    bytes_are_carried_one_to_one();
    let byte = span_byte(found, endpoint, dpa)?;
    Some(gather(weave, byte.slot, byte.offset))
}
