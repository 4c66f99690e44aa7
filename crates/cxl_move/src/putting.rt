//! Bytes that are put into the blocks of media, once the frames that they need are free.

ghost use Rattle.std.specs.Prelude.{◌≡◌, ◌≢◌, ◌+◌, ◌≤◌, length};
ghost use Rattle.cxl_media.specs.Blocks.{key_of, IsInOneBlock};
ghost use Rattle.cxl_move.specs.Puts.{need_at, IsPut, PutsOne, PutsTwo};

use crate::parts::DeviceByte;
use cxl_media::{Full, Media};
use cxl_reply::{Lack, Reply};

/// Puts bytes into one block, where the frame that it needs is free; else nothing changes, and the lack is told.
pub fn put_one<M: Media>(media: &mut M, byte: DeviceByte, bytes: &[u8]) -> Reply
    requires { IsInOneBlock byte.dpa (length bytes.now) }
    ensures { PutsOne byte.ep byte.dpa bytes.now (M.state media.old) (M.state media.new) result }
{
    match media.put(byte.ep, byte.dpa, bytes) {
        Ok(()) => Reply::Stored(bytes.len() as u32),
        Err(Full) => Reply::Full(Lack { need: 1, free: 0 }),
    }
}

/// Puts bytes into two blocks, where the frames that both need are free; else nothing changes, and the lack is told.
pub fn put_two<M: Media>(
    media: &mut M,
    first: DeviceByte,
    front: &[u8],
    second: DeviceByte,
    back: &[u8],
) -> Reply
    requires front { IsInOneBlock first.dpa (length front.now) }
    requires back { IsInOneBlock second.dpa (length back.now) }
    requires apart { key_of first.ep first.dpa ≢ key_of second.ep second.dpa }
    ensures { PutsTwo first.ep first.dpa front.now second.ep second.dpa back.now (M.state media.old)
        (M.state media.new) result }
{
    let need = media.need(first.ep, first.dpa) + media.need(second.ep, second.dpa);
    let free = media.free();
    if need > free {
        return Reply::Full(Lack { need, free });
    }
    put_in_block(media, first, front);
    put_in_block(media, second, back);
    Reply::Stored((front.len() + back.len()) as u32)
}

/// Puts bytes into a block for which a frame is free, where it needs one.
fn put_in_block<M: Media>(media: &mut M, byte: DeviceByte, bytes: &[u8])
    requires within { IsInOneBlock byte.dpa (length bytes.now) }
    requires room { need_at (M.state media.old) byte.ep byte.dpa ≤ (M.state media.old).free }
    ensures put { IsPut byte.ep byte.dpa bytes.now (M.state media.old) (M.state media.new) }
    ensures taken { (M.state media.new).free + need_at (M.state media.old) byte.ep byte.dpa
        ≡ (M.state media.old).free }
{
    // The frame that is needed is free, so it is put.
    let _put = media.put(byte.ep, byte.dpa, bytes);
}
