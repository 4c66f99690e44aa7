//! The check: the regions of an image that is accepted, or its first breach.

ghost use Rattle.std.specs.Prelude.{◌≡◌, length, All, IsErr, OnOk, IfOk, IfErr, IfSome, IfNone};
ghost use Rattle.cxl_window.specs.Windows.{AreMadeWith};
ghost use Rattle.cxl_model.specs.Hosts.{as_system};
ghost use Rattle.cxl_model.specs.System.{system_of, bridge_uids};
ghost use Rattle.cxl_model.specs.Accepted.{IsAccepted, IsFirstBreach, HasFirstBreach, IsOrderlySystem};
ghost use Rattle.cxl_model.specs.Listed.{AreRegionsByBase};
ghost use Rattle.cxl_check.specs.Spots.{TellsFirstBreach};
ghost use Rattle.cxl_check.specs.inner.Facts.{AreSystemTables};
ghost use Rattle.cxl_check.specs.inner.Known.{IsKnown};

use crate::blocks::blocks_breach;
use crate::caps::caps_breach;
use crate::fault::{Breach, CheckFault};
use crate::known::{Known, none_met};
use crate::ranges::ranges_breach;
use crate::regions::regions;
use crate::tables::{Tables, tables_of};
use cxl_image::Image;
use cxl_model::{Found, Host, accepted_or_breach, hosts_with_caps_are_systems};
use cxl_topo::Topo;
use cxl_window::Window;
use std::alloc::Global;

/// The regions of an image by rising base, or its first breach. The image may be of any blocks. (The rules K1 to
/// K12 are this project's.) Takes memory.
pub fn check(
    alloc: Global,
    image: &Image,
    topo: &Topo,
    windows: &[Window],
) -> Result<Vec<Found>, CheckFault>
    requires { AreMadeWith windows.now (bridge_uids topo.now.nodes) }
    ensures accepted { OnOk result (IsAccepted (system_of image.now topo.now windows.now)) }
    ensures regions { IfOk result
        (λ regions. AreRegionsByBase (system_of image.now topo.now windows.now) regions.items) }
    ensures breach { IfErr result (TellsFirstBreach (system_of image.now topo.now windows.now)) }

    // But for want of memory, regions come for each accepted image, and a breach for each other one.
    ensures only_regions { IsAccepted (system_of image.now topo.now windows.now)
        → IfErr result (λ fault. fault ≡ CheckFault.Memory) }
    ensures only_breach { HasFirstBreach (system_of image.now topo.now windows.now) → IsErr result }
{
    accepted_or_breach();
    let host = Host {
        image,
        topo,
        windows,
    };
    match early_breach(&host) {
        Some(breach) => Err(CheckFault::Breach(breach)),
        None => check_ranges(alloc, &host),
    }
}

/// The same of an image that keeps K1 to K8. Takes memory.
fn check_ranges(alloc: Global, host: &Host) -> Result<Vec<Found>, CheckFault>
    requires ready { IsOrderlySystem (as_system host.now) }
    ensures accepted { OnOk result (IsAccepted (as_system host.now)) }
    ensures regions { IfOk result (λ regions. AreRegionsByBase (as_system host.now) regions.items) }
    ensures breach { IfErr result (TellsFirstBreach (as_system host.now)) }
{
    let tables = tables_of(alloc, host)?;
    let mut met = none_met(alloc, host, &tables)?;
    regions_or_breach(alloc, &mut met, host, &tables)
}

/// The same by the tables of the image. Takes memory.
fn regions_or_breach(
    alloc: Global,
    met: &mut Vec<Known>,
    host: &Host,
    tables: &Tables,
) -> Result<Vec<Found>, CheckFault>
    requires met { All (IsKnown (as_system host.now)) met.old.items }
    requires ready { IsOrderlySystem (as_system host.now) }
    requires tables { AreSystemTables (as_system host.now) tables.now }
    ensures accepted { OnOk result (IsAccepted (as_system host.now)) }
    ensures regions { IfOk result (λ regions. AreRegionsByBase (as_system host.now) regions.items) }
    ensures breach { IfErr result (TellsFirstBreach (as_system host.now)) }
{
    if let Some(breach) = ranges_breach(met, host, tables) {
        return Err(CheckFault::Breach(breach));
    }
    Ok(regions(alloc, met, host, tables)?)
}

/// The first breach of K1 to K8, which speak of blocks alone.
fn early_breach(host: &Host) -> Option<Breach>
    requires { AreMadeWith host.now.windows.now (bridge_uids host.now.topo.now.nodes) }
    ensures none { IfNone result (IsOrderlySystem (as_system host.now)) }
    ensures first { IfSome result
        (λ b. IsFirstBreach (as_system host.now) b.rule b.node b.decoder) }
{
    hosts_with_caps_are_systems();
    let _count = host.topo.count();
    let _blocks = host.image.count();
    if let Some(node) = caps_breach(host) {
        return Some(Breach {
            rule: 1,
            node,
            decoder: 0,
        });
    }
    blocks_breach(host)
}
