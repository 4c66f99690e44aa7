//! The end of a region's bytes: its blocks leave media.

ghost use Rattle.std.specs.Prelude.{◌≡◌};
ghost use Rattle.cxl_media.specs.MediaState.{frame_count};
ghost use Rattle.cxl_model.specs.System.{System, IsSystem};
ghost use Rattle.cxl_model.specs.Regions.{IsRegion};
ghost use Rattle.cxl_move.specs.Sides.{IsCleared};

use crate::slots::slot_length;
use cxl_media::Media;
use cxl_model::{
    Found, bytes_are_carried_one_to_one, carries_where_chain_ends, pieces_are_carried_whole,
    regions_lie_in_windows, slots_are_endpoints, weaves_fill_their_regions,
};

/// Takes the blocks of a region's spans out of media and frees their frames.
pub fn scrub_region<M: Media>(media: &mut M, found: &Found)
    requires { (s : System) × IsSystem s × IsRegion s found.now }
    ensures cleared { IsCleared found.now (M.state media.old).blocks (M.state media.new).blocks }
    ensures frames { frame_count (M.state media.new) ≡ frame_count (M.state media.old) }
{
    slots_are_endpoints();
    weaves_fill_their_regions();
    regions_lie_in_windows();
    bytes_are_carried_one_to_one();
    pieces_are_carried_whole();
    carries_where_chain_ends();
    let length = slot_length(found);
    let spans = found.spans.items();
    for place in spans {
        media.scrub(place.endpoint, place.start, place.start + length);
    }
}
