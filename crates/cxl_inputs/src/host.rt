//! The host that the files of a table, a topology and an image describe.

ghost use Rattle.std.specs.Prelude.{◌≡◌, ◌≤◌, Some, [], ◌∷◌, IfOk, IfErr, OnOk};
ghost use Rattle.cxl_table.specs.CedtFields.{CedtFields};
ghost use Rattle.cxl_image.specs.Images.{HasCapsOf};
ghost use Rattle.cxl_io.specs.Fetch.{AsksFor};
ghost use Rattle.cxl_model.specs.System.{IsSystem, system_of, bridge_uids};
ghost use Rattle.cxl_window.specs.Windows.{windows_of, AreMadeWith};
ghost use Rattle.cxl_inputs.specs.File.{HasNotFailed, RunsOutBehind};
ghost use Rattle.cxl_inputs.specs.Host.{AreRead, HasNoHost};
ghost use Rattle.cxl_inputs.specs.Image.{IsImageOf, HasNoImage};
ghost use Rattle.cxl_inputs.specs.Stop.{IsStop};

use crate::both::fetch_both;
use crate::image::fetch_image;
use crate::stop::Stop;
use crate::table_windows::text_windows;
use cxl_cedt::{Cedt, TableText};
use cxl_image::Image;
use cxl_io::{Fetch, Memory};
use cxl_topo::Topo;
use cxl_window::{Window, windows};
use std::alloc::Global;

/// What a command's three files describe: a topology, an image over it, and the table's windows as the
/// topology's bridges make them.
#[derive(Drop)]
pub struct OwnedHost {
    pub topo: Topo,
    pub image: Image,
    pub windows: Vec<Window>,
}

impl OwnedHost {
    /// The host with this topology, an image over it, and the windows of this table.
    pub fn of(alloc: Global, table: &Cedt, topo: Topo, image: Image) -> Result<OwnedHost, Memory>
        requires { HasCapsOf image topo.nodes }
        ensures parts { IfOk result (λ host. (host.topo ≡ topo) × (host.image ≡ image)) }
        ensures windows { IfOk result (λ host. host.windows.items ≡ windows_of table.now.records (Some (bridge_uids topo.nodes))) }
        ensures system { IfOk result (λ host. IsSystem (system_of image topo host.windows.items)) }
    {
        let windows = windows(alloc, table, Some(topo.uids()))?;
        Ok(OwnedHost::over(topo, image, windows))
    }

    /// The host with this topology, an image over it, and the windows of this table, which is read and not copied.
    pub fn of_text(
        alloc: Global,
        table: &TableText,
        topo: Topo,
        image: Image,
    ) -> Result<OwnedHost, Memory>
        requires { HasCapsOf image topo.nodes }
        ensures parts { IfOk result (λ host. (host.topo ≡ topo) × (host.image ≡ image)) }
        ensures windows { IfOk result (λ host. host.windows.items ≡ windows_of table.now.records (Some (bridge_uids topo.nodes))) }
        ensures system { IfOk result (λ host. IsSystem (system_of image topo host.windows.items)) }
    {
        let windows = text_windows(alloc, table, Some(topo.uids()))?;
        Ok(OwnedHost::over(topo, image, windows))
    }

    /// The host with this topology, an image over it, and windows that are made with its bridges.
    fn over(topo: Topo, image: Image, windows: Vec<Window>) -> OwnedHost
        requires caps { HasCapsOf image topo.nodes }
        requires made { AreMadeWith windows.items (bridge_uids topo.nodes) }
        ensures parts { (result.topo ≡ topo) × (result.image ≡ image) × (result.windows.items ≡ windows.items) }
        ensures system { IsSystem (system_of image topo windows.items) }
    {
        // what is known of a tree and of an image, by asking them
        let _nodes = topo.count();
        let _blocks = image.count();
        OwnedHost {
            topo,
            image,
            windows,
        }
    }
}

/// The host of a table, a topology and an image, each of which is read before the next is asked for. It
/// stops at the first that has no reading.
pub fn fetch_host<F: Fetch>(
    alloc: Global,
    cedt: &str,
    topo: &str,
    image: &str,
    files: &mut F,
) -> Result<OwnedHost, Stop>
    ensures read { IfOk result (λ host. (table : CedtFields)
        × AreRead (F.state files.old).told cedt.now topo.now image.now table host.topo host.image
        × (host.windows.items ≡ windows_of table.records (Some (bridge_uids host.topo.nodes)))) }
    ensures system { IfOk result (λ host. IsSystem (system_of host.image host.topo host.windows.items)) }
    ensures asked { OnOk result (AsksFor (F.state files.old) (F.state files.new) (cedt.now ∷ topo.now ∷ image.now ∷ [])) }
    ensures unfailed { OnOk result (HasNotFailed (F.state files.old) (F.state files.new)) }
    ensures stops { IfErr result (IsStop (HasNoHost cedt.now topo.now image.now (F.state files.old) (F.state files.new))
        (RunsOutBehind (cedt.now ∷ topo.now ∷ image.now ∷ []) (F.state files.old) (F.state files.new))) }
    ensures counts { (F.state files.old).faults ≤ (F.state files.new).faults }
    ensures stays { (F.state files.new).told ≡ (F.state files.old).told }
{
    let (table, topo) = fetch_both(alloc, cedt, topo, files)?;
    let host = fetch_over(alloc, &table, topo, image, files);
    drop(table);
    host
}

/// The host of a table and a topology, and of an image that is asked for. It stops where the image has no reading.
fn fetch_over<F: Fetch>(
    alloc: Global,
    table: &TableText,
    topo: Topo,
    image: &str,
    files: &mut F,
) -> Result<OwnedHost, Stop>
    ensures read { IfOk result (λ host. (host.topo ≡ topo)
        × IsImageOf ((F.state files.old).told image.now) host.topo.nodes host.image
        × (host.windows.items ≡ windows_of table.now.records (Some (bridge_uids host.topo.nodes)))) }
    ensures system { IfOk result (λ host. IsSystem (system_of host.image host.topo host.windows.items)) }
    ensures asked { OnOk result (AsksFor (F.state files.old) (F.state files.new) (image.now ∷ [])) }
    ensures unfailed { OnOk result (HasNotFailed (F.state files.old) (F.state files.new)) }
    ensures stops { IfErr result (IsStop (HasNoImage [] image.now topo.nodes (F.state files.old) (F.state files.new))
        (RunsOutBehind (image.now ∷ []) (F.state files.old) (F.state files.new))) }
    ensures counts { (F.state files.old).faults ≤ (F.state files.new).faults }
    ensures stays { (F.state files.new).told ≡ (F.state files.old).told }
{
    match fetch_image(alloc, image, &topo, files) {
        Ok(image) => Ok(OwnedHost::of_text(alloc, table, topo, image)?),
        Err(stop) => {
            drop(topo);
            Err(stop)
        }
    }
}
