//! How a session opens on a register image.

ghost use Rattle.std.specs.Prelude.{◌≡◌, ◌⊎◌, ℕ, ◌<◌, ◌≤◌, [], length, All, AllPairs, option_map, map, IfOk, IfErr, OnOk};
ghost use Rattle.std.specs.List.{range_with_len};
ghost use Rattle.std.specs.Vec.{vec_capacity};
ghost use Rattle.cxl_bus.specs.Failed.{HasFailed, fresh};
ghost use Rattle.cxl_enc.specs.Faults.{Rose, LeavesCount};
ghost use Rattle.cxl_image.specs.Images.{HasCapsOf};
ghost use Rattle.cxl_window.specs.Windows.{AreMadeWith};
ghost use Rattle.cxl_check.specs.declared.fault.Breach.{Breach};
ghost use Rattle.cxl_model.specs.Accepted.{IsAccepted, IsFirstBreach, HasFirstBreach};
ghost use Rattle.cxl_model.specs.Listed.{AreRegionsByBase, region_limit};
ghost use Rattle.cxl_model.specs.Regions.{IsRegion};
ghost use Rattle.cxl_model.specs.System.{IsSystem, system_of, bridge_uids};
ghost use Rattle.cxl_machine.specs.Machine.{Machine};
ghost use Rattle.cxl_machine.specs.Sound.{IsMachine, Opens, auto_name, enabled_blocks};
ghost use Rattle.cxl_opening.specs.Opening.{endpoints_in, enabling, ArePoweredOn, empty_media, IsHalfEnabled, IsRefusedImage, HasRegions};
ghost use Rattle.cxl_opening.specs.Opened.{opened_machine, CanOpen, AreRoutesOf};
ghost use Rattle.cxl_session.specs.Standing.{StandsFor, IsAt};

use crate::session::Session;
use cxl_bus::Regs;
use cxl_enc::{Memory, Name};
use cxl_image::Image;
use cxl_legal::ports_are_bytes;
use cxl_live::LiveRegions;
use cxl_machine::{OpenFault, openings_are_machines};
use cxl_media::Roll;
use cxl_model::{Found, regions_lie_in_windows};
use cxl_opening::{
    auto_names, enable_endpoints, enabled, few_to_open, powered_on, regions_to_open, routes_of,
};
use cxl_topo::Topo;
use cxl_walk::Kept;
use cxl_window::Window;
use std::alloc::Global;

impl Session {
    /// Starts a session from a register image: powers registers and media on, and lets each endpoint decode. The image's
    /// regions live from then on as `auto0`, `auto1` and so on, in the order of their bases. All memory is taken before the
    /// first register is written. (This project's rule.)
    pub fn open<R: Regs, M: Roll>(
        alloc: Global,
        topo: Topo,
        windows: Vec<Window>,
        start: Image,
        regs: &mut R,
        media: &mut M,
    ) -> Result<Session, OpenFault>
        requires made { AreMadeWith windows.items (bridge_uids topo.nodes) }

        // The image's machine opens, and session, registers and media stand for it.
        ensures opened { IfOk result (λ session. (m : Machine) × Opens (system_of start topo windows.items) topo.frames m
            × IsAt session (R.state regs.new) (M.state media.new) m) }
        // The words sent are those that let the endpoints decode.
        ensures enabled { OnOk result ((R.state regs.new).trail
            ≡ option_map (λ _. enabling (endpoints_in topo.nodes)) (R.state regs.old).trail) }
        // It keeps what it was handed, and its image is the bus's.
        ensures handed { IfOk result (λ session. (session.topo ≡ topo) × (session.windows ≡ windows.items)) }
        ensures image { IfOk result (λ session. session.image ≡ (R.state regs.new).blocks) }

        // A breach is the image's first; each image that has one is refused so, but for want of memory.
        ensures breach { (b : Breach) → result ≡ Err (OpenFault.Breach b)
            → IsFirstBreach (system_of start topo windows.items) b.rule b.node b.decoder }
        ensures breached { HasFirstBreach (system_of start topo windows.items)
            → (result ≡ Err OpenFault.Memory) ⊎ ((b : Breach) × (result ≡ Err (OpenFault.Breach b))) }
        // So many regions of an accepted image are more than may live; each such image is refused so, but for want of memory.
        ensures full { (n : ℕ) → result ≡ Err (OpenFault.Full n)
            → HasRegions (system_of start topo windows.items) n × (region_limit < n) }
        ensures filled { (n : ℕ) → HasRegions (system_of start topo windows.items) n → region_limit < n
            → (result ≡ Err OpenFault.Memory) ⊎ (result ≡ Err (OpenFault.Full n)) }
        // Both come before anything is touched.
        ensures untouched { IfErr result (λ fault. IsRefusedImage fault → (regs.new ≡ regs.old) × (media.new ≡ media.old)) }

        // The bus failed only with cause: then media is empty, and the endpoints before the fault decode.
        ensures bus { result ≡ Err OpenFault.Bus → Rose (R.state regs.old).faults (R.state regs.new).faults }
        ensures half_enabled { result ≡ Err OpenFault.Bus
            → IsHalfEnabled (system_of start topo windows.items) (R.state regs.old) (R.state regs.new)
            × (M.state media.new ≡ empty_media topo.frames) }
        // After want of memory each is as before, or as powering it on left it.
        ensures memory { result ≡ Err OpenFault.Memory
            → ((R.state regs.new ≡ R.state regs.old) ⊎ ArePoweredOn start (R.state regs.old) (R.state regs.new))
            × ((M.state media.new ≡ M.state media.old) ⊎ (M.state media.new ≡ empty_media topo.frames)) }
        ensures counts { (R.state regs.old).faults ≤ (R.state regs.new).faults }
        ensures alone { (R.state regs.new).counts_failures_alone ≡ (R.state regs.old).counts_failures_alone }
        // A fault is not swallowed, nor hidden in want of memory.
        ensures unswallowed { OnOk result
            (LeavesCount (R.state regs.old).counts_failures_alone (R.state regs.old).faults (R.state regs.new).faults) }
        ensures unhidden { result ≡ Err OpenFault.Memory
            → LeavesCount (R.state regs.old).counts_failures_alone (R.state regs.old).faults (R.state regs.new).faults }
        // Nor did a call of the bus fail since it was powered on.
        ensures unfailed { OnOk result (HasFailed (fresh (R.state regs.old)) (R.state regs.new) []) }
    {
        match regions_to_open(alloc, &topo, &windows, &start) {
            Ok(founds) => {
                Session::over_regions(alloc, topo, windows, start, founds, regs, media)
            }
            Err(fault) => {
                // calls let go part by part, which is proved once for all that do
                drop(topo);
                drop(start);
                Err(fault)
            }
        }
    }

    /// Starts a session from an accepted register image and the regions that it has, as `open` does, but does not judge the
    /// image again. (This project's rule.)
    pub fn open_accepted<R: Regs, M: Roll>(
        alloc: Global,
        topo: Topo,
        windows: Vec<Window>,
        start: Image,
        regions: Vec<Found>,
        regs: &mut R,
        media: &mut M,
    ) -> Result<Session, OpenFault>
        requires system { IsSystem (system_of start topo windows.items) }
        requires accepted { IsAccepted (system_of start topo windows.items) }
        requires listed { AreRegionsByBase (system_of start topo windows.items) regions.items }

        // The image's machine opens, and session, registers and media stand for it.
        ensures opened { IfOk result (λ session. (m : Machine) × Opens (system_of start topo windows.items) topo.frames m
            × IsAt session (R.state regs.new) (M.state media.new) m) }
        // The words sent are those that let the endpoints decode.
        ensures enabled { OnOk result ((R.state regs.new).trail
            ≡ option_map (λ _. enabling (endpoints_in topo.nodes)) (R.state regs.old).trail) }
        // It keeps what it was handed, and its image is the bus's.
        ensures handed { IfOk result (λ session. (session.topo ≡ topo) × (session.windows ≡ windows.items)) }
        ensures image { IfOk result (λ session. session.image ≡ (R.state regs.new).blocks) }

        // It is refused for no breach; for too many regions exactly where they are more than may live.
        ensures breach { (b : Breach) → result ≡ Err (OpenFault.Breach b) → ⊥ }
        ensures full { (n : ℕ) → result ≡ Err (OpenFault.Full n)
            → HasRegions (system_of start topo windows.items) n × (region_limit < n) }
        ensures filled { (n : ℕ) → HasRegions (system_of start topo windows.items) n → region_limit < n
            → result ≡ Err (OpenFault.Full n) }
        // That comes before anything is touched.
        ensures untouched { IfErr result (λ fault. IsRefusedImage fault → (regs.new ≡ regs.old) × (media.new ≡ media.old)) }

        // The bus failed only with cause: then media is empty, and the endpoints before the fault decode.
        ensures bus { result ≡ Err OpenFault.Bus → Rose (R.state regs.old).faults (R.state regs.new).faults }
        ensures half_enabled { result ≡ Err OpenFault.Bus
            → IsHalfEnabled (system_of start topo windows.items) (R.state regs.old) (R.state regs.new)
            × (M.state media.new ≡ empty_media topo.frames) }
        // After want of memory each is as before, or as powering it on left it.
        ensures memory { result ≡ Err OpenFault.Memory
            → ((R.state regs.new ≡ R.state regs.old) ⊎ ArePoweredOn start (R.state regs.old) (R.state regs.new))
            × ((M.state media.new ≡ M.state media.old) ⊎ (M.state media.new ≡ empty_media topo.frames)) }
        ensures counts { (R.state regs.old).faults ≤ (R.state regs.new).faults }
        ensures alone { (R.state regs.new).counts_failures_alone ≡ (R.state regs.old).counts_failures_alone }
        // A fault is not swallowed, nor hidden in want of memory.
        ensures unswallowed { OnOk result
            (LeavesCount (R.state regs.old).counts_failures_alone (R.state regs.old).faults (R.state regs.new).faults) }
        ensures unhidden { result ≡ Err OpenFault.Memory
            → LeavesCount (R.state regs.old).counts_failures_alone (R.state regs.old).faults (R.state regs.new).faults }
        // Nor did a call of the bus fail since it was powered on.
        ensures unfailed { OnOk result (HasFailed (fresh (R.state regs.old)) (R.state regs.new) []) }
    {
        match few_to_open(regions) {
            Ok(founds) => {
                Session::over_regions(alloc, topo, windows, start, founds, regs, media)
            }
            Err(fault) => {
                drop(topo);
                drop(start);
                Err(fault)
            }
        }
    }

    /// The same over regions that are no more than may live.
    fn over_regions<R: Regs, M: Roll>(
        alloc: Global,
        topo: Topo,
        windows: Vec<Window>,
        start: Image,
        founds: Vec<Found>,
        regs: &mut R,
        media: &mut M,
    ) -> Result<Session, OpenFault>
        requires { CanOpen (system_of start topo windows.items) founds.items }
        ensures opened { IfOk result (λ session. (m : Machine) × Opens (system_of start topo windows.items) topo.frames m
            × IsAt session (R.state regs.new) (M.state media.new) m) }
        ensures enabled { OnOk result ((R.state regs.new).trail
            ≡ option_map (λ _. enabling (endpoints_in topo.nodes)) (R.state regs.old).trail) }
        ensures handed { IfOk result (λ session. (session.topo ≡ topo) × (session.windows ≡ windows.items)) }
        ensures image { IfOk result (λ session. session.image ≡ (R.state regs.new).blocks) }
        ensures refused { IfErr result (λ fault. IsRefusedImage fault → ⊥) }
        ensures bus { result ≡ Err OpenFault.Bus → Rose (R.state regs.old).faults (R.state regs.new).faults }
        ensures half_enabled { result ≡ Err OpenFault.Bus
            → IsHalfEnabled (system_of start topo windows.items) (R.state regs.old) (R.state regs.new)
            × (M.state media.new ≡ empty_media topo.frames) }
        ensures memory { result ≡ Err OpenFault.Memory
            → ((R.state regs.new ≡ R.state regs.old) ⊎ ArePoweredOn start (R.state regs.old) (R.state regs.new))
            × ((M.state media.new ≡ M.state media.old) ⊎ (M.state media.new ≡ empty_media topo.frames)) }
        ensures counts { (R.state regs.old).faults ≤ (R.state regs.new).faults }
        ensures alone { (R.state regs.new).counts_failures_alone ≡ (R.state regs.old).counts_failures_alone }
        ensures unswallowed { OnOk result
            (LeavesCount (R.state regs.old).counts_failures_alone (R.state regs.old).faults (R.state regs.new).faults) }
        ensures unhidden { result ≡ Err OpenFault.Memory
            → LeavesCount (R.state regs.old).counts_failures_alone (R.state regs.old).faults (R.state regs.new).faults }
        ensures unfailed { OnOk result (HasFailed (fresh (R.state regs.old)) (R.state regs.new) []) }
    {
        let Ok(endpoints) = powered_on(alloc, &topo, &start, regs, media) else {
            drop(topo);
            drop(start);
            return Err(OpenFault::Memory);
        };
        let Ok(session) = Session::over(alloc, topo, windows, start, founds, &endpoints) else {
            return Err(OpenFault::Memory);
        };
        let Ok(session) = enable_endpoints(&endpoints, regs).and(Ok(session)) else {
            return Err(OpenFault::Bus);
        };
        Ok(session)
    }

    /// The session of an image with these regions, of which every endpoint decodes. Takes memory.
    fn over(
        alloc: Global,
        topo: Topo,
        windows: Vec<Window>,
        start: Image,
        founds: Vec<Found>,
        endpoints: &[u32],
    ) -> Result<Session, Memory>
        requires opens { CanOpen (system_of start topo windows.items) founds.items }
        requires endpoints { endpoints.now ≡ endpoints_in topo.nodes }
        ensures machine { IfOk result (λ session. IsMachine
            (opened_machine (system_of start topo windows.items) topo.frames founds.items)) }
        ensures stands { IfOk result (λ session. StandsFor session
            (opened_machine (system_of start topo windows.items) topo.frames founds.items)) }
        ensures handed { IfOk result (λ session. (session.topo ≡ topo) × (session.windows ≡ windows.items)) }
        ensures image { IfOk result (λ session. session.image ≡ enabled_blocks start) }
    {
        openings_are_machines();
        ports_are_bytes(&topo);
        regions_lie_in_windows();
        let _frames = topo.frames();
        let image = enabled(start, endpoints);
        let Ok(live) = opened_regions(alloc, &image, &topo, &windows, founds) else {
            drop(topo);
            drop(image);
            return Err(Memory);
        };
        Ok(Session {
            topo,
            windows,
            image,
            names: live.names,
            founds: live.founds,
            kepts: live.kepts,
            job: None,
        })
    }
}

/// The regions that are live from the opening on, as a session keeps them.
#[derive(Drop)]
struct OpenedRegions {
    names: Vec<Name>,
    founds: LiveRegions,
    kepts: Vec<Kept>,
}

/// Regions of an image, which rise by base, with their names and routes. Takes memory.
fn opened_regions(
    alloc: Global,
    image: &Image,
    topo: &Topo,
    windows: &[Window],
    founds: Vec<Found>,
) -> Result<OpenedRegions, Memory>
    requires caps { HasCapsOf image.now topo.now.nodes }
    requires made { AreMadeWith windows.now (bridge_uids topo.now.nodes) }
    requires regions { All (IsRegion (system_of image.now topo.now windows.now)) founds.items }
    requires rising { AllPairs (λ a b. a.base < b.base) founds.items }
    requires few { length founds.items ≤ region_limit }
    ensures founds { IfOk result (λ live. live.founds ≡ founds.items) }
    ensures names { IfOk result (λ live. live.names.items ≡ map auto_name (range_with_len 0 (length founds.items))) }
    ensures routes { IfOk result (λ live. AreRoutesOf (system_of image.now topo.now windows.now) founds.items live.kepts.items) }
    ensures room { IfOk result (λ live. (region_limit ≤ vec_capacity live.names) × (region_limit ≤ vec_capacity live.kepts)) }
{
    let names = auto_names(alloc, founds.len())?;
    let kepts = routes_of(alloc, image, topo, windows, &founds)?;
    let founds = LiveRegions::new(alloc, founds)?;
    Ok(OpenedRegions {
        names,
        founds,
        kepts,
    })
}
