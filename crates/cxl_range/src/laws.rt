//! Laws of extents, each the contract of a function that does nothing.

ghost use Rattle.std.specs.Prelude.{◌≡◌, ℕ, ◌+◌, ◌<◌, ◌≤◌, All, sum_by};
ghost use Rattle.cxl_window.specs.Fields.{WindowFields};
ghost use Rattle.cxl_model.specs.declared.extent.Extent.{Extent};
ghost use Rattle.cxl_model.specs.declared.found.Found.{Found};
ghost use Rattle.cxl_model.specs.System.{System, IsSystem};
ghost use Rattle.cxl_model.specs.Regions.{IsRegionIn};
ghost use Rattle.cxl_range.specs.Extents.{extents_of};
ghost use Rattle.cxl_range.specs.Carried.{IsCarried, Follow};

use cxl_deal::{chunks_deal_whole, region_fills_slots};
use cxl_model::{regions_lie_in_windows, slots_are_endpoints, weaves_fill_their_regions};

/// A law of extents: the region carries each byte of one as far behind its place as the byte lies behind its first
/// one, they follow each other from the first byte of the range to the last, and their lengths add up to its length.
pub fn extents_carry_their_bytes()
    ensures carried { (s : System) (w : WindowFields) (found : Found) (h len : ℕ) → IsSystem s
        → IsRegionIn s w found → 0 < len → found.base ≤ h → h + len ≤ found.base + found.size
        → All (IsCarried found w) (extents_of found w h len) }
    ensures follow { (s : System) (w : WindowFields) (found : Found) (h len : ℕ) → IsSystem s
        → IsRegionIn s w found → 0 < len → found.base ≤ h → h + len ≤ found.base + found.size
        → Follow h (h + len) (extents_of found w h len) }
    ensures lengths { (s : System) (w : WindowFields) (found : Found) (h len : ℕ) → IsSystem s
        → IsRegionIn s w found → 0 < len → found.base ≤ h → h + len ≤ found.base + found.size
        → sum_by (λ (extent : Extent). extent.len) (extents_of found w h len) ≡ len }
{
    weaves_fill_their_regions();
    regions_lie_in_windows();
    slots_are_endpoints();
    region_fills_slots();
    chunks_deal_whole();
}
