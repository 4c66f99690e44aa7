//! The slots of a region on the device of an endpoint.

ghost use Rattle.std.specs.Prelude.{◌≡◌, IfSome, IfNone};
ghost use Rattle.cxl_model.specs.Bytes.{slot_length, LiesInSpan};
ghost use Rattle.cxl_model.specs.Regions.{IsRegion};
ghost use Rattle.cxl_model.specs.System.{System, IsSystem};
ghost use Rattle.cxl_move.specs.Slots.{IsByteOfSlot};

use cxl_deal::{Dealt, region_fills_slots};
use cxl_model::{Found, slot_on, slots_are_endpoints, weaves_fill_their_regions};

/// The slot and the offset in its span, in bytes, at which a device byte of an endpoint lies, where it lies in one of the
/// region's spans.
pub fn span_byte(found: &Found, endpoint: u32, dpa: u64) -> Option<Dealt>
    requires { (s : System) × IsSystem s × IsRegion s found.now }
    ensures some { IfSome result (λ byte. IsByteOfSlot found.now endpoint dpa byte.slot byte.offset) }
    ensures none { IfNone result (LiesInSpan found.now endpoint dpa → ⊥) }
{
    weaves_fill_their_regions();
    slots_are_endpoints();
    let slot = slot_on(found, endpoint)?;
    let start = found.spans.items()[slot].start;
    if dpa < start || dpa - start >= slot_length(found) {
        return None;
    }
    Some(Dealt {
        slot: slot as u32,
        offset: dpa - start,
    })
}

/// How many bytes of a device each slot has.
pub(crate) fn slot_length(found: &Found) -> u64
    requires { (s : System) × IsSystem s × IsRegion s found.now }
    ensures { result ≡ slot_length found.now }
{
    weaves_fill_their_regions();
    region_fills_slots();
    found.size / u64::from(found.ways)
}
