//! A copy of a region's bytes to another region.

ghost use Rattle.std.specs.Prelude.{◌≡◌, ◌≤◌, ℕ, ◌+◌, List, length};
ghost use Rattle.cxl_media.specs.MediaState.{frame_count};
ghost use Rattle.cxl_move.specs.Sides.{AreHeld, AreSides, IsCopied};

use crate::blocks::copy_block;
use crate::pieces::{block_of, pieces_are_carried_to_blocks};
use crate::scrubbing::scrub_region;
use crate::side::Side;
use cxl_media::Media;

/// Gives the second region the bytes of the first, too, and changes no other block. `pieces` is what `held` answers
/// for the first, and there are frames for them: those that are free, and those of the second region's pieces.
pub fn copy_bytes<M: Media>(media: &mut M, from: &Side<'_>, to: &Side<'_>, pieces: &[u64])
    requires sides { AreSides from.now.found.now from.now.window.now to.now.found.now to.now.window.now }
    requires held { AreHeld from.now.found.now from.now.window.now (M.state media.old).blocks pieces.now }
    requires room { (others : List ℕ) × AreHeld to.now.found.now to.now.window.now (M.state media.old).blocks others
        × (length pieces.now ≤ (M.state media.old).free + length others) }
    ensures copied { IsCopied from.now.found.now from.now.window.now to.now.found.now to.now.window.now
        (M.state media.old).blocks (M.state media.new).blocks }
    ensures frames { frame_count (M.state media.new) ≡ frame_count (M.state media.old) }
{
    pieces_are_carried_to_blocks();
    scrub_region(media, to.found);
    for n in pieces {
        let source = block_of(from, *n);
        let target = block_of(to, *n);
        copy_block(media, source, target);
    }
}
