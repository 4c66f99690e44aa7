//! A region of an image, and the place of each of its slots on a device.

ghost use Rattle.std.specs.Prelude.{◌≡◌};
ghost use Rattle.cxl_model.specs.System.{System};
ghost use Rattle.cxl_model.specs.Hosts.{IsHost};
ghost use Rattle.cxl_model.specs.Regions.{IsRegionIn, weave_fields};
ghost use Rattle.cxl_model.specs.Bytes.{slot_on};

use cxl_deal::Weave;
use cxl_enc::{FixedList, MemKind, split};
use cxl_window::Window;

/// A region of an image: a range of host addresses that is interleaved over the spans of its endpoints.
#[derive(Drop)]
pub struct Found {
    /// The first host address.
    pub base: u64,
    /// In bytes.
    pub size: u64,
    /// The index of the window in which it lies.
    pub window: u32,
    /// The granularity code, 0 in a region of one way.
    pub gran: u8,
    /// The number of ways.
    pub ways: u8,
    pub kind: MemKind,
    /// The span of each slot, in the order of the slots.
    pub spans: FixedList<Place>,
}

/// The span of one slot: as many bytes of an endpoint's device as the region has for each of its ways.
#[derive(Clone, Copy, Debug, PartialEq, Eq)]
pub struct Place {
    /// The endpoint's node number.
    pub endpoint: u32,
    /// The device address of its first byte.
    pub start: u64,
}

/// The weave by which a region carries its bytes: its base and granularity, and the ways and arithmetic
/// of its window. (CXL interleave arithmetic.)
pub fn weave_of(found: &Found, window: &Window) -> Weave
    requires region { (s : System) × IsHost s × IsRegionIn s window.now found.now }
    ensures { result ≡ weave_fields found.now window.now }
{
    let root = split(window.ways());
    let all = split(found.ways);
    let maps = window.maps();
    Weave::new(
        found.base,
        found.gran,
        root.bits,
        root.third,
        all.bits - root.bits,
        window.xor(),
        [maps[0], maps[1], maps[2], maps[3]],
    )
}

/// The first slot whose span lies on the endpoint's device, where one does.
pub fn slot_on(found: &Found, endpoint: u32) -> Option<usize>
    ensures { result ≡ slot_on endpoint found.now.spans }
{
    found
        .spans
        .items()
        .iter()
        .position(|place| place.endpoint == endpoint)
}
