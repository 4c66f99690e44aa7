//! The regions of an image with which a session opens, or why none does.

ghost use Rattle.std.specs.Prelude.{◌≡◌, ◌⊎◌, ℕ, ◌<◌, length, IfOk, IfErr};
ghost use Rattle.cxl_window.specs.Windows.{AreMadeWith};
ghost use Rattle.cxl_check.specs.declared.fault.Breach.{Breach};
ghost use Rattle.cxl_model.specs.Accepted.{IsAccepted, IsFirstBreach, HasFirstBreach};
ghost use Rattle.cxl_model.specs.Listed.{AreRegionsByBase, region_limit};
ghost use Rattle.cxl_model.specs.System.{System, IsSystem, system_of, bridge_uids};
ghost use Rattle.cxl_opening.specs.Opening.{HasRegions};
ghost use Rattle.cxl_opening.specs.Opened.{CanOpen};

use cxl_check::{CheckFault, check};
use cxl_image::Image;
use cxl_machine::{OpenFault, REGION_LIMIT};
use cxl_model::{
    Found, accepted_image_is_system, accepted_or_breach, regions_are_listed, regions_lie_in_windows,
};
use cxl_topo::Topo;
use cxl_window::Window;
use std::alloc::Global;

/// The regions of an accepted image, no more than may live; or why no session opens on it. But for want of memory it
/// is refused for a breach exactly where it has one, and then for the first, and for too many regions exactly where
/// it has more than 256. Takes memory.
pub fn regions_to_open(
    alloc: Global,
    topo: &Topo,
    windows: &[Window],
    start: &Image,
) -> Result<Vec<Found>, OpenFault>
    requires { AreMadeWith windows.now (bridge_uids topo.now.nodes) }
    ensures opens { IfOk result (λ regions. CanOpen (system_of start.now topo.now windows.now) regions.items) }
    ensures breach { (b : Breach) → result ≡ Err (OpenFault.Breach b)
        → IsFirstBreach (system_of start.now topo.now windows.now) b.rule b.node b.decoder }
    ensures breached { HasFirstBreach (system_of start.now topo.now windows.now)
        → (result ≡ Err OpenFault.Memory) ⊎ ((b : Breach) × (result ≡ Err (OpenFault.Breach b))) }
    ensures full { (n : ℕ) → result ≡ Err (OpenFault.Full n)
        → HasRegions (system_of start.now topo.now windows.now) n × (region_limit < n) }
    ensures filled { (n : ℕ) → HasRegions (system_of start.now topo.now windows.now) n → region_limit < n
        → (result ≡ Err OpenFault.Memory) ⊎ (result ≡ Err (OpenFault.Full n)) }
    ensures no_bus { result ≡ Err OpenFault.Bus → ⊥ }
{
    accepted_or_breach();
    let founds = match check(alloc, start, topo, windows) {
        Ok(founds) => founds,
        Err(CheckFault::Breach(breach)) => return Err(OpenFault::Breach(breach)),
        Err(CheckFault::Memory) => return Err(OpenFault::Memory),
    };
    accepted_image_is_system(start, topo, windows);
    few_to_open(founds)
}

/// The regions of an accepted image, by rising base, where no more are than may live; else how many there are.
pub fn few_to_open(founds: Vec<Found>) -> Result<Vec<Found>, OpenFault>
    requires { (s : System) × IsSystem s × IsAccepted s × AreRegionsByBase s founds.items }
    ensures opens { (s : System) → IsSystem s → IsAccepted s → AreRegionsByBase s founds.items
        → IfOk result (λ regions. CanOpen s regions.items) }
    ensures full { (s : System) (n : ℕ) → IsSystem s → IsAccepted s → AreRegionsByBase s founds.items
        → result ≡ Err (OpenFault.Full n) → HasRegions s n × (region_limit < n) }
    ensures filled { (s : System) (n : ℕ) → IsSystem s → AreRegionsByBase s founds.items
        → HasRegions s n → region_limit < n → result ≡ Err (OpenFault.Full n) }
    ensures only { IfErr result (λ fault. fault ≡ OpenFault.Full (length founds.items)) }
{
    accepted_or_breach();
    regions_are_listed();
    regions_lie_in_windows();
    if founds.len() > REGION_LIMIT {
        return Err(OpenFault::Full(founds.len() as u32));
    }
    Ok(founds)
}
