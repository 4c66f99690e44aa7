//! The live regions by place: what a session keeps of each, and which one holds a host address.

ghost use Rattle.std.specs.Prelude.{◌≡◌, ℕ, ◌<◌, true, length, slice_get, Some};
ghost use Rattle.cxl_machine.specs.Machine.{Machine, has_host};
ghost use Rattle.cxl_machine.specs.Replies.{ends_within};
ghost use Rattle.cxl_machine.specs.Sound.{IsMachine};
ghost use Rattle.cxl_session.specs.Standing.{StandsFor};
ghost use Rattle.cxl_session.specs.inner.Places.{HoldsAt};
ghost use Rattle.cxl_session.specs.inner.Answering.{IsWithin};

use crate::session::Session;
use cxl_enc::Name;
use cxl_model::{Found, regions_lie_in_windows, regions_share_no_byte};
use cxl_reply::Reply;
use cxl_walk::Kept;
use cxl_window::Window;

impl Session {
    /// The name of the live region at a place.
    pub(crate) fn name_at(&self, place: usize) -> Name
        requires { place < length self.now.names }
        ensures { slice_get self.now.names place ≡ Some result }
    {
        self.names[place]
    }

    /// The live region at a place.
    pub(crate) fn found_at(&self, place: usize) -> &Found
        requires { place < length self.now.founds }
        ensures { slice_get self.now.founds place ≡ Some result.now }
    {
        self.founds.at(place)
    }

    /// The kept routes of the live region at a place.
    pub(crate) fn kept_at(&self, place: usize) -> &Kept
        requires { place < length self.now.kept }
        ensures { slice_get self.now.kept place ≡ Some result.now }
    {
        &self.kepts[place]
    }

    /// The window of a number.
    pub(crate) fn window_at(&self, index: u32) -> &Window
        requires { index < length self.now.windows }
        ensures { slice_get self.now.windows index ≡ Some result.now }
    {
        &self.windows[index as usize]
    }

    /// The place of the live region that holds a host address.
    pub(crate) fn place_of_host(&self, h: u64) -> Option<usize>
        ensures { (m : Machine) → StandsFor self.now m → IsMachine m → HoldsAt self.now m h result }
    {
        regions_lie_in_windows();
        regions_share_no_byte();
        self.founds.holder(h)
    }

    /// The place of the live region that holds so many bytes from a host address on, or why none does.
    pub(crate) fn place_within(&self, h: u64, len: u64) -> Result<usize, Reply>
        requires { (m : Machine) × StandsFor self.now m × IsMachine m }
        ensures { (m : Machine) → StandsFor self.now m → IsMachine m → IsWithin self.now m h len result }
    {
        let Some(place) = self.place_of_host(h) else {
            return Err(Reply::Unmapped);
        };
        if ends_within(self.found_at(place), h, len) {
            Ok(place)
        } else {
            Err(Reply::CrossesEnd)
        }
    }
}

/// Whether so many bytes from a host byte of the region on end in it.
fn ends_within(found: &Found, h: u64, len: u64) -> bool
    requires { has_host found.now h ≡ true }
    ensures { result ≡ ends_within found.now h len }
{
    len <= found.size - (h - found.base)
}
