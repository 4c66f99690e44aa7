//! The host that the files of a table and a topology describe, after reset.

ghost use Rattle.std.specs.Prelude.{◌≡◌, ◌≤◌, Some, [], ◌∷◌, IfOk, IfErr, OnOk};
ghost use Rattle.cxl_table.specs.CedtFields.{CedtFields};
ghost use Rattle.cxl_image.specs.Images.{reset_blocks};
ghost use Rattle.cxl_io.specs.Fetch.{AsksFor};
ghost use Rattle.cxl_model.specs.Accepted.{IsAccepted};
ghost use Rattle.cxl_model.specs.System.{IsSystem, system_of, bridge_uids};
ghost use Rattle.cxl_window.specs.Windows.{windows_of};
ghost use Rattle.cxl_inputs.specs.File.{HasNotFailed, RunsOutBehind};
ghost use Rattle.cxl_inputs.specs.ResetHost.{AreBothRead, HasNoResetHost};
ghost use Rattle.cxl_inputs.specs.Stop.{IsStop};

use crate::both::fetch_both;
use crate::host::OwnedHost;
use crate::stop::Stop;
use cxl_cedt::TableText;
use cxl_image::Image;
use cxl_io::{Fetch, Memory};
use cxl_model::reset_hosts_are_accepted;
use cxl_topo::Topo;
use std::alloc::Global;

/// The host of a table and a topology after reset; the table is read before the topology is asked for. It
/// stops at the first that has no reading.
pub fn fetch_reset_host<F: Fetch>(
    alloc: Global,
    cedt: &str,
    topo: &str,
    files: &mut F,
) -> Result<OwnedHost, Stop>
    ensures read { IfOk result (λ host. (table : CedtFields)
        × AreBothRead (F.state files.old).told cedt.now topo.now table host.topo
        × (host.windows.items ≡ windows_of table.records (Some (bridge_uids host.topo.nodes)))) }
    ensures reset { IfOk result (λ host. host.image ≡ reset_blocks host.topo.nodes) }
    ensures system { IfOk result (λ host. IsSystem (system_of host.image host.topo host.windows.items)) }
    ensures accepted { IfOk result (λ host. IsAccepted (system_of host.image host.topo host.windows.items)) }
    ensures asked { OnOk result (AsksFor (F.state files.old) (F.state files.new) (cedt.now ∷ topo.now ∷ [])) }
    ensures unfailed { OnOk result (HasNotFailed (F.state files.old) (F.state files.new)) }
    ensures stops { IfErr result (IsStop (HasNoResetHost cedt.now topo.now (F.state files.old) (F.state files.new))
        (RunsOutBehind (cedt.now ∷ topo.now ∷ []) (F.state files.old) (F.state files.new))) }
    ensures counts { (F.state files.old).faults ≤ (F.state files.new).faults }
    ensures stays { (F.state files.new).told ≡ (F.state files.old).told }
{
    let (table, topo) = fetch_both(alloc, cedt, topo, files)?;
    let host = after_reset(alloc, &table, topo);
    drop(table);
    Ok(host?)
}

/// The host with this topology, its image after reset, and the windows of this table.
fn after_reset(alloc: Global, table: &TableText, topo: Topo) -> Result<OwnedHost, Memory>
    ensures topo { IfOk result (λ host. host.topo ≡ topo) }
    ensures windows { IfOk result (λ host. host.windows.items ≡ windows_of table.now.records (Some (bridge_uids host.topo.nodes))) }
    ensures reset { IfOk result (λ host. host.image ≡ reset_blocks host.topo.nodes) }
    ensures system { IfOk result (λ host. IsSystem (system_of host.image host.topo host.windows.items)) }
    ensures accepted { IfOk result (λ host. IsAccepted (system_of host.image host.topo host.windows.items)) }
{
    let image = Image::new(alloc, &topo)?;
    let host = OwnedHost::of_text(alloc, table, topo, image)?;
    reset_hosts_are_accepted();
    Ok(host)
}
