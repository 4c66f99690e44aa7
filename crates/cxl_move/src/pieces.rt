//! The pieces of a region, and the blocks of media to which they are carried.

ghost use Rattle.std.specs.Prelude.{◌≡◌, ℕ, ◌*◌, ◌/◌, ◌<◌, IfSome, IfNone};
ghost use Rattle.cxl_enc.specs.Limits.{address_limit};
ghost use Rattle.cxl_window.specs.Fields.{WindowFields};
ghost use Rattle.cxl_model.specs.declared.found.Found.{Found};
ghost use Rattle.cxl_model.specs.System.{System, IsSystem};
ghost use Rattle.cxl_model.specs.Regions.{IsRegion, IsRegionIn};
ghost use Rattle.cxl_model.specs.Bytes.{LiesInSpan};
ghost use Rattle.cxl_move.specs.Sides.{IsPieceAt};
ghost use Rattle.cxl_move.specs.Slots.{IsByteOfSlot};

use crate::side::Side;
use crate::slots::span_byte;
use cxl_deal::{Dealt, deal, gather, region_fills_slots};
use cxl_media::At;
use cxl_model::{
    Found, bytes_are_carried_one_to_one, carries_where_chain_ends, pieces_are_carried_whole,
    regions_lie_in_windows, slots_are_endpoints, weave_of, weaves_fill_their_regions,
};

/// A law of regions: one carries its pieces one to one onto the blocks of 256 bytes of its spans.
pub fn pieces_are_carried_to_blocks()
    ensures each { (s : System) (w : WindowFields) (found : Found) (n : ℕ) → IsSystem s → IsRegionIn s w found
        → n < found.size / 256 → (endpoint : ℕ) × (block : ℕ) × IsPieceAt found w n endpoint block }
    ensures within { (s : System) (w : WindowFields) (found : Found) (n endpoint block : ℕ) → IsSystem s
        → IsRegionIn s w found → IsPieceAt found w n endpoint block → n < found.size / 256 }
    ensures one { (s : System) (w : WindowFields) (found : Found) (n endpoint block other place : ℕ) → IsSystem s
        → IsRegionIn s w found → IsPieceAt found w n endpoint block → IsPieceAt found w n other place
        → (endpoint ≡ other) × (block ≡ place) }
    ensures apart { (s : System) (w : WindowFields) (found : Found) (n other endpoint block : ℕ) → IsSystem s
        → IsRegionIn s w found → IsPieceAt found w n endpoint block → IsPieceAt found w other endpoint block
        → n ≡ other }
    ensures inside { (s : System) (w : WindowFields) (found : Found) (n endpoint block : ℕ) → IsSystem s
        → IsRegionIn s w found → IsPieceAt found w n endpoint block → LiesInSpan found endpoint (256 * block) }
    ensures onto { (s : System) (w : WindowFields) (found : Found) (endpoint block : ℕ) → IsSystem s
        → IsRegionIn s w found → LiesInSpan found endpoint (256 * block)
        → (n : ℕ) × IsPieceAt found w n endpoint block }
{
    bytes_are_carried_one_to_one();
    pieces_are_carried_whole();
    carries_where_chain_ends();
}

/// The block to which the region carries its piece of this number.
pub(crate) fn block_of(side: &Side<'_>, n: u64) -> At
    requires region { (s : System) × IsSystem s × IsRegionIn s side.now.window.now side.now.found.now }
    requires within { n < side.now.found.now.size / 256 }
    ensures at { IsPieceAt side.now.found.now side.now.window.now n result.ep result.block }
    ensures low { 256 * result.block < address_limit }
{
    weaves_fill_their_regions();
    regions_lie_in_windows();
    slots_are_endpoints();
    bytes_are_carried_one_to_one();
    pieces_are_carried_whole();
    let weave = weave_of(side.found, side.window);
    let dealt = deal(&weave, side.found.base + 256 * n);
    let place = side.found.spans.items()[dealt.slot as usize];
    At {
        ep: place.endpoint,
        block: (place.start + dealt.offset) / 256,
    }
}

/// The number of the piece that the region carries to a block, where it carries one there.
pub(crate) fn piece_at(side: &Side<'_>, at: At) -> Option<u64>
    requires region { (s : System) × IsSystem s × IsRegionIn s side.now.window.now side.now.found.now }
    ensures some { IfSome result (λ n. IsPieceAt side.now.found.now side.now.window.now n at.ep at.block) }
    ensures none { IfNone result ((n : ℕ) → IsPieceAt side.now.found.now side.now.window.now n at.ep at.block → ⊥) }
{
    weaves_fill_their_regions();
    regions_lie_in_windows();
    slots_are_endpoints();
    region_fills_slots();
    bytes_are_carried_one_to_one();
    pieces_are_carried_whole();
    let byte = block_byte(side.found, at)?;
    let weave = weave_of(side.found, side.window);
    let h = gather(&weave, byte.slot, byte.offset);
    Some((h - side.found.base) / 256)
}

/// Where the first byte of a block lies in the region's spans, where it lies in one.
fn block_byte(found: &Found, at: At) -> Option<Dealt>
    requires { (s : System) × IsSystem s × IsRegion s found.now }
    ensures some { IfSome result (λ byte. IsByteOfSlot found.now at.ep (256 * at.block) byte.slot byte.offset) }
    ensures none { IfNone result (LiesInSpan found.now at.ep (256 * at.block) → ⊥) }
{
    weaves_fill_their_regions();
    slots_are_endpoints();
    let dpa = at.block.checked_mul(256)?;
    span_byte(found, at.ep, dpa)
}
