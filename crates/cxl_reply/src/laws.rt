//! The law that what is found of an accepted image has a text.

ghost use Rattle.std.specs.Prelude.{◌≡◌, ℕ, ◌<◌, true, length};
ghost use Rattle.cxl_model.specs.declared.found.Found.{Found};
ghost use Rattle.cxl_model.specs.System.{System, IsSystem};
ghost use Rattle.cxl_model.specs.Accepted.{breaks};
ghost use Rattle.cxl_model.specs.Regions.{IsRegion};
ghost use Rattle.cxl_reply.specs.Conditions.{IsToldFound};

use cxl_model::{hosts_with_caps_are_systems, slots_are_endpoints, weaves_fill_their_regions};

/// A law of texts: the regions of an image can be told, and so can its breaches.
pub fn findings_are_told()
    ensures regions { (s : System) (found : Found) → IsSystem s → IsRegion s found → IsToldFound s.nodes found }
    ensures breaches { (s : System) (rule n i : ℕ) → IsSystem s → breaks s rule n i ≡ true → n < length s.nodes }
{
    slots_are_endpoints();
    weaves_fill_their_regions();
    hosts_with_caps_are_systems();
}
