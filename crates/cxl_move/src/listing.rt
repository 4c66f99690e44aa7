//! Which pieces of a region media has.

ghost use Rattle.std.specs.Prelude.{ℕ, ◌<◌, IfOk, IfSome, IfNone, length};
ghost use Rattle.cxl_media.specs.Roll.{key_at_place};
ghost use Rattle.cxl_model.specs.System.{System, IsSystem};
ghost use Rattle.cxl_model.specs.Regions.{IsRegionIn};
ghost use Rattle.cxl_move.specs.Sides.{AreHeld};
ghost use Rattle.cxl_move.specs.inner.Steps.{HasPieceAt};

use crate::pieces::{piece_at, pieces_are_carried_to_blocks};
use crate::side::Side;
use cxl_enc::Memory;
use cxl_media::Roll;
use std::alloc::Global;

/// The numbers of the region's pieces whose blocks media has, rising. Goes through the places of media and not through
/// the region. Takes memory.
pub fn held<M: Roll>(alloc: Global, media: &M, side: &Side<'_>) -> Result<Vec<u64>, Memory>
    requires { (s : System) × IsSystem s × IsRegionIn s side.now.window.now side.now.found.now }
    ensures { IfOk result (λ pieces. AreHeld side.now.found.now side.now.window.now (M.state media.now).blocks pieces.items) }
{
    pieces_are_carried_to_blocks();
    let mut pieces = Vec::new(alloc);
    let places = media.places();
    for i in 0..places {
        if let Some(n) = piece_at_place(media, side, i) {
            pieces.push(n)?;
        }
    }
    pieces.sort_unstable();
    Ok(pieces)
}

/// The number of the piece whose block stands at a place of media, where a piece of the region does.
fn piece_at_place<M: Roll>(media: &M, side: &Side<'_>, i: u32) -> Option<u64>
    requires place { i < length (M.roll media.now) }
    requires region { (s : System) × IsSystem s × IsRegionIn s side.now.window.now side.now.found.now }
    ensures some { IfSome result (λ n. HasPieceAt side.now.found.now side.now.window.now (key_at_place (M.roll media.now) i) n) }
    ensures none { IfNone result ((n : ℕ) → HasPieceAt side.now.found.now side.now.window.now (key_at_place (M.roll media.now) i) n → ⊥) }
{
    match media.at(i) {
        Some(at) => piece_at(side, at),
        None => None,
    }
}
