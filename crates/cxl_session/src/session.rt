//! What a session keeps, and what it tells of that.

ghost use Rattle.std.specs.Prelude.{◌≡◌, map, All};
ghost use Rattle.std.specs.List.{AllZip};
ghost use Rattle.cxl_window.specs.Fields.{WindowFields};
ghost use Rattle.cxl_model.specs.Regions.{IsRegion, IsRegionIn};
ghost use Rattle.cxl_walk.specs.Keeping.{IsKept};
ghost use Rattle.cxl_machine.specs.Machine.{Live, Machine};
ghost use Rattle.cxl_machine.specs.Sound.{IsMachine};
ghost use Rattle.cxl_session.specs.State.{image_in};
ghost use Rattle.cxl_session.specs.Standing.{StandsFor};

use crate::pending::PendingJob;
use cxl_enc::Name;
use cxl_image::Image;
use cxl_live::LiveRegions;
use cxl_machine::live_regions_stay;
use cxl_model::Found;
use cxl_topo::Topo;
use cxl_walk::{Kept, kept_routes_stay};
use cxl_window::Window;
use std::marker::Model;

/// A session over a host: its topology, its windows, the register image, the live regions with their kept routes, and the job
/// that is pending, if any. Contracts see it as a `SessionState`.
#[derive(Drop)]
pub struct Session {
    pub(crate) topo: Topo,
    pub(crate) windows: Vec<Window>,
    pub(crate) image: Image,
    pub(crate) names: Vec<Name>,
    pub(crate) founds: LiveRegions,
    pub(crate) kepts: Vec<Kept>,
    pub(crate) job: Option<PendingJob>,
}

impl Model for Session {
    ghost use Rattle.cxl_session.specs.State.{SessionState};

    ghost Value = { SessionState };

    ghost use Rattle.cxl_session.specs.Inside.{session_view, HasRooms};

    ghost view = { session_view };

    ghost invariant = { HasRooms };
}

impl Session {
    /// The register image; the bus holds the same.
    pub fn image(&self) -> &Image
        ensures { result.now ≡ self.now.image }
    {
        &self.image
    }

    /// The topology that it was opened with.
    pub fn topo(&self) -> &Topo
        ensures { result.now ≡ self.now.topo }
    {
        &self.topo
    }

    /// The windows that it was opened with.
    pub fn windows(&self) -> &[Window]
        ensures { result.now ≡ self.now.windows }
    {
        self.windows.as_slice()
    }

    /// The live regions in the order in which they were made. One whose job is pending is not among them.
    pub fn live(&self) -> &[Found]
        ensures value { result.now ≡ self.now.founds }
        ensures machine { (m : Machine) → StandsFor self.now m → result.now ≡ map (λ (region : Live). region.found) m.live }
        // Each is a region of the image as it is, also between two writes of a job.
        ensures regions { (m : Machine) → StandsFor self.now m → IsMachine m
            → All (IsRegion (image_in self.now)) self.now.founds }
    {
        live_regions_stay();
        self.founds.as_slice()
    }

    /// The kept routes of the live regions, in their order.
    pub fn kept(&self) -> &[Kept]
        ensures value { result.now ≡ self.now.kept }
        // Each has the weave of its region, and for each slot the route, in the image as it is, of the host byte that is
        // dealt to it at offset 0.
        ensures routes { (m : Machine) → StandsFor self.now m → IsMachine m
            → AllZip (λ found kept. (w : WindowFields) × IsRegionIn (image_in self.now) w found
            × IsKept (image_in self.now) w found kept) self.now.founds self.now.kept }
    {
        live_regions_stay();
        kept_routes_stay();
        self.kepts.as_slice()
    }
}
