//! The trait of media: the memory of all endpoints, in blocks of 256 bytes.

ghost use Rattle.std.specs.Prelude.{◌≡◌, ◌+◌, ◌%◌, ◌≤◌, ◌↔◌, IsErr, OnOk, OnErr, length};
ghost use Rattle.std.specs.FinMap as map;
ghost use Rattle.cxl_enc.specs.Limits.{frame_limit};
ghost use Rattle.cxl_media.specs.MediaState.{MediaState, frame_count};
ghost use Rattle.cxl_media.specs.Blocks.{key_of, block_at, frames_needed, IsInOneBlock, bytes_from, overwritten, scrubbed};

use cxl_enc::Memory;
use std::alloc::Global;

/// A block had to be added and no frame was free.
#[derive(Clone, Copy, PartialEq, Eq)]
pub struct Full;

/// The memory of all endpoints: a map from an endpoint's node number and a block number to 256 bytes, and a number of
/// free frames. The frames free and the blocks in the map are together as many as the frames that it was powered on
/// with.
///
/// Device addresses (`dpa`, `from`, `to`) are in bytes; block b covers the addresses `256 * b` to `256 * b + 255`. A
/// block that is not in the map reads as zero.
pub trait Media {
    /// The bytes of each block in the map, and how many frames are free.
    ghost state: { Self → MediaState };

    /// Empties the map and makes so many frames free. The one call that takes memory; after `Memory` all is as before.
    fn power_on(&mut self, alloc: Global, frames: u32) -> Result<(), Memory>
        requires some { 1 ≤ frames }
        requires few { frames ≤ frame_limit }
        ensures blocks { OnOk result ((state self.new).blocks ≡ map.empty) }
        ensures free { OnOk result ((state self.new).free ≡ frames) }
        ensures frames { OnOk result (frame_count (state self.new) ≡ frames) }
        ensures err { OnErr result (state self.new ≡ state self.old) };

    /// Fills `into` with the bytes from a device address on.
    fn get(&self, ep: u32, dpa: u64, into: &mut [u8])
        requires { IsInOneBlock dpa (length into.old) }
        ensures filled { into.new ≡ bytes_from (block_at (state self.now).blocks (key_of ep dpa)) (dpa % 256) (length into.old) }
        ensures whole { length (block_at (state self.now).blocks (key_of ep dpa)) ≡ 256 };

    /// How many frames a `put` at this device address takes: 1 where its block is not in the map, and else 0.
    fn need(&self, ep: u32, dpa: u64) -> u32
        ensures { result ≡ frames_needed (state self.now).blocks (key_of ep dpa) };

    /// Writes bytes from a device address on. A block that was not in the map is added, zero elsewhere, and takes a
    /// frame. `Full` comes where one is needed and none is free, and changes nothing.
    fn put(&mut self, ep: u32, dpa: u64, bytes: &[u8]) -> Result<(), Full>
        requires { IsInOneBlock dpa (length bytes.now) }
        ensures full { IsErr result ↔
            ((frames_needed (state self.old).blocks (key_of ep dpa) ≡ 1) × ((state self.old).free ≡ 0)) }
        ensures blocks { OnOk result ((state self.new).blocks ≡ map.insert (state self.old).blocks (key_of ep dpa)
            (overwritten (block_at (state self.old).blocks (key_of ep dpa)) (dpa % 256) bytes.now)) }
        ensures free { OnOk result
            ((state self.new).free + frames_needed (state self.old).blocks (key_of ep dpa) ≡ (state self.old).free) }
        ensures frames { frame_count (state self.new) ≡ frame_count (state self.old) }
        ensures whole { length (block_at (state self.old).blocks (key_of ep dpa)) ≡ 256 }
        ensures err { OnErr result (state self.new ≡ state self.old) };

    /// Takes every block of the endpoint from `from` up to `to` out of the map, and frees its frame.
    fn scrub(&mut self, ep: u32, from: u64, to: u64)
        requires from { from % 256 ≡ 0 }
        requires to { to % 256 ≡ 0 }
        requires order { from ≤ to }
        ensures blocks { (state self.new).blocks ≡ scrubbed (state self.old).blocks ep from to }
        ensures frames { frame_count (state self.new) ≡ frame_count (state self.old) };

    /// How many frames are free.
    fn free(&self) -> u32
        ensures { result ≡ (state self.now).free };
}
