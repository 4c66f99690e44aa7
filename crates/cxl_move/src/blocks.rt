//! One block of media at a time.

ghost use Rattle.std.specs.Prelude.{◌≡◌, ◌+◌, ◌*◌, ◌<◌, None, IsTrue, length};
ghost use Rattle.std.specs.FinMap as map;
ghost use Rattle.cxl_enc.specs.Limits.{address_limit};
ghost use Rattle.cxl_media.specs.MediaState.{frame_count};
ghost use Rattle.cxl_media.specs.Blocks.{block_at};
ghost use Rattle.cxl_media.specs.Roll.{told_key};
ghost use Rattle.cxl_move.specs.inner.Steps.{IsPieceCarried};

use cxl_media::{At, Media};

/// Takes a block that is in the map out and puts it at another place, where none is. No frame need be free: the block's own
/// is free before the new one is asked for.
pub(crate) fn move_block<M: Media>(media: &mut M, source: At, target: At)
    requires low { 256 * source.block < address_limit }
    requires target_low { 256 * target.block < address_limit }
    requires there { IsTrue (map.contains_key (M.state media.old).blocks (told_key source)) }
    requires absent { map.get (M.state media.old).blocks (told_key target) ≡ None }
    ensures carried { IsPieceCarried (λ piece. None) (told_key source) (told_key target)
        (M.state media.old).blocks (M.state media.new).blocks }
    ensures free { (M.state media.new).free ≡ (M.state media.old).free }
    ensures frames { frame_count (M.state media.new) ≡ frame_count (M.state media.old) }
{
    let bytes = block_bytes(media, source);
    media.scrub(source.ep, 256 * source.block, 256 * source.block + 256);
    // The frame that the block had is free, so it is put.
    let _put = media.put(target.ep, 256 * target.block, &bytes);
}

/// Puts a block that is in the map at another place, too, where none is.
pub(crate) fn copy_block<M: Media>(media: &mut M, source: At, target: At)
    requires low { 256 * source.block < address_limit }
    requires target_low { 256 * target.block < address_limit }
    requires there { IsTrue (map.contains_key (M.state media.old).blocks (told_key source)) }
    requires absent { map.get (M.state media.old).blocks (told_key target) ≡ None }
    requires room { 0 < (M.state media.old).free }
    ensures carried { IsPieceCarried (λ piece. piece) (told_key source) (told_key target)
        (M.state media.old).blocks (M.state media.new).blocks }
    ensures free { (M.state media.new).free + 1 ≡ (M.state media.old).free }
    ensures frames { frame_count (M.state media.new) ≡ frame_count (M.state media.old) }
{
    let bytes = block_bytes(media, source);
    // There is a free frame, so it is put.
    let _copied = media.put(target.ep, 256 * target.block, &bytes);
}

/// The bytes of a block.
fn block_bytes<M: Media>(media: &M, at: At) -> [u8; 256]
    requires { 256 * at.block < address_limit }
    ensures value { result ≡ block_at (M.state media.now).blocks (told_key at) }
    ensures whole { length result ≡ 256 }
{
    let mut bytes = [0; 256];
    media.get(at.ep, 256 * at.block, &mut bytes);
    bytes
}
