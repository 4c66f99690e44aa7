//! What a session keeps of the regions with which it opens, with room for as many as may live: their names and routes.

ghost use Rattle.std.specs.Prelude.{◌≡◌, ◌≢◌, ℕ, ◌<◌, ◌≤◌, Some, length, slice_get, All, AllPairs, map, IfOk};
ghost use Rattle.std.specs.List.{range_with_len};
ghost use Rattle.std.specs.Vec.{vec_capacity};
ghost use Rattle.cxl_image.specs.Images.{HasCapsOf};
ghost use Rattle.cxl_window.specs.Windows.{AreMadeWith};
ghost use Rattle.cxl_model.specs.Listed.{region_limit};
ghost use Rattle.cxl_model.specs.Regions.{IsRegion};
ghost use Rattle.cxl_model.specs.System.{system_of, bridge_uids};
ghost use Rattle.cxl_machine.specs.Sound.{auto_name};
ghost use Rattle.cxl_opening.specs.Opened.{AreRoutesOf};

use cxl_enc::{Memory, Name};
use cxl_image::Image;
use cxl_machine::REGION_LIMIT;
use cxl_model::Found;
use cxl_topo::Topo;
use cxl_walk::{Kept, Own, own_of_each};
use cxl_window::Window;
use std::alloc::Global;
use std::mem;

/// The names of so many regions, `auto0`, `auto1` and so on, with room for as many as may live. Takes memory.
pub fn auto_names(alloc: Global, count: usize) -> Result<Vec<Name>, Memory>
    requires { count ≤ region_limit }
    ensures names { IfOk result (λ names. names.items ≡ map auto_name (range_with_len 0 count)) }
    ensures room { IfOk result (λ names. region_limit ≤ vec_capacity names) }
{
    let mut names = Vec::with_capacity(alloc, REGION_LIMIT)?;
    for i in 0..count {
        let name = auto_name(alloc, i as u32)?;
        names.push_reserved(name);
    }
    Ok(names)
}

/// The name of the region that is opened as this one. Takes memory.
fn auto_name(alloc: Global, i: u32) -> Result<Name, Memory>
    requires { i < region_limit }
    ensures { IfOk result (λ name. name ≡ auto_name i) }
{
    let text = format!(in alloc; "auto{i}")?;
    match Name::read(text.as_bytes()) {
        Some(name) => Ok(name),
        None => unreachable!(),
    }
}

/// The kept routes of regions of an image, which rise by base, in their order, with room for as many as may live. Takes
/// memory.
pub fn routes_of(
    alloc: Global,
    image: &Image,
    topo: &Topo,
    windows: &[Window],
    founds: &[Found],
) -> Result<Vec<Kept>, Memory>
    requires caps { HasCapsOf image.now topo.now.nodes }
    requires made { AreMadeWith windows.now (bridge_uids topo.now.nodes) }
    requires regions { All (IsRegion (system_of image.now topo.now windows.now)) founds.now }
    requires rising { AllPairs (λ a b. a.base < b.base) founds.now }
    requires few { length founds.now ≤ region_limit }
    ensures routes { IfOk result (λ kepts. AreRoutesOf (system_of image.now topo.now windows.now) founds.now kepts.items) }
    ensures room { IfOk result (λ kepts. region_limit ≤ vec_capacity kepts) }
{
    let mut kepts = Vec::with_capacity(alloc, REGION_LIMIT)?;
    if founds.is_empty() {
        return Ok(kepts);
    }
    let nodes = topo.count();
    let blocks = image.count();
    prove!(nodes == blocks);
    let mut owns = own_of_each(alloc, image, topo, founds)?;
    let mut likely = vec![in alloc; 0; nodes as usize]?;
    for place in 0..founds.len() {
        let found = &founds[place];
        let own = take_own(alloc, &mut owns, place);
        let kept = Kept::along_by(alloc, topo, windows, found, own, &mut likely)?;
        kepts.push_reserved(kept);
    }
    Ok(kepts)
}

/// Takes the own decoders of one region out of those of all.
fn take_own(alloc: Global, owns: &mut Vec<Vec<Own>>, place: usize) -> Vec<Own>
    requires { place < length owns.old.items }
    ensures own { slice_get owns.old.items place ≡ Some result }
    ensures long { length owns.new.items ≡ length owns.old.items }
    ensures others { (k : ℕ) → k ≢ place → slice_get owns.new.items k ≡ slice_get owns.old.items k }
{
    mem::replace(&mut owns[place], Vec::new(alloc))
}
