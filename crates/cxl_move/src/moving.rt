//! A move of a region's bytes to another region, which leaves the first one zero.

ghost use Rattle.std.specs.Prelude.{◌≡◌, ℕ, ◌+◌, List, length};
ghost use Rattle.cxl_media.specs.MediaState.{frame_count};
ghost use Rattle.cxl_move.specs.Sides.{AreHeld, AreSides, IsMoved};

use crate::blocks::move_block;
use crate::pieces::{block_of, pieces_are_carried_to_blocks};
use crate::scrubbing::scrub_region;
use crate::side::Side;
use cxl_media::Media;

/// Gives the second region the bytes of the first, and leaves the first zero. `pieces` is what `held` answers for the
/// first. No frame need be free: that of each piece is freed before the new one is asked for.
pub fn move_bytes<M: Media>(media: &mut M, from: &Side<'_>, to: &Side<'_>, pieces: &[u64])
    requires sides { AreSides from.now.found.now from.now.window.now to.now.found.now to.now.window.now }
    requires held { AreHeld from.now.found.now from.now.window.now (M.state media.old).blocks pieces.now }
    ensures moved { IsMoved from.now.found.now from.now.window.now to.now.found.now to.now.window.now
        (M.state media.old).blocks (M.state media.new).blocks }
    // As many frames as there were, and those of the second region's old pieces are free.
    ensures frames { frame_count (M.state media.new) ≡ frame_count (M.state media.old) }
    ensures freed { (others : List ℕ) → AreHeld to.now.found.now to.now.window.now (M.state media.old).blocks others
        → (M.state media.new).free ≡ (M.state media.old).free + length others }
{
    pieces_are_carried_to_blocks();
    scrub_region(media, to.found);
    for n in pieces {
        let source = block_of(from, *n);
        let target = block_of(to, *n);
        move_block(media, source, target);
    }
}
