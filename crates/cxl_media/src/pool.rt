//! The pool: a fixed number of frames, and those that are free.

ghost use Rattle.std.specs.Prelude.{◌≡◌, [], ◌+◌, ◌↔◌, length, replicate, slice_set, Some, None, IsNone, IfSome, IfNone, IfOk};
ghost use Rattle.std.specs.Borrow.{sem};
ghost use Rattle.cxl_media.specs.Pool.{frame_bytes, IsOut, IsFree, free_count, out_count, zeros};
ghost use Rattle.cxl_media.specs.Lending.{LendsBytes};

use crate::link::{link, next, zero, zeroed};
use cxl_enc::Memory;
use std::alloc::Global;
use std::marker::Model;

/// A frame that was taken from a pool. Contracts see it as its number. It is spent by `Pool::give`; a frame that is
/// dropped stays out of its pool for good.
#[derive(Drop)]
pub struct Frame {
    number: u32,
}

impl Model for Frame {
    ghost use Rattle.std.specs.Prelude.{ℕ};

    ghost Value = { ℕ };

    ghost view = { λ frame. frame.number };
}

impl Frame {
    /// Its number among the frames of its pool, from 0 on.
    pub fn number(&self) -> u32
        ensures { result ≡ self.now }
    {
        self.number
    }
}

/// A fixed number of frames of 256 bytes each, in one array.
///
/// Contracts see it as a list by the numbers of the frames: `None` where a frame is free, and its bytes where it is
/// out. The frames that were given back form a list through their own first four bytes, in the order in which `take`
/// hands them out; those that were never taken come after them, by their numbers.
#[derive(Drop)]
pub struct Pool {
    // The frames that were taken so far, by their numbers. There is room for all; one is made when it is first taken.
    frames: Vec<[u8; 256]>,
    // How many frames there are. Those that were never taken are free.
    total: u32,
    // How many frames were given back, and the first of them. Each names the next; what the last one names is not read.
    given: u32,
    first: u32,
}

impl Model for Pool {
    ghost use Rattle.cxl_media.specs.Pool.{Frames};

    ghost Value = { Frames };

    ghost use Rattle.std.specs.Vec.{vec_capacity};
    ghost use Rattle.cxl_media.specs.Inside.{pool_of, IsPool};

    ghost view = { λ p. pool_of p.frames.items p.given p.first p.total };

    ghost invariant = { λ p. IsPool p.frames.items p.given p.first p.total (vec_capacity p.frames) };
}

impl Pool {
    /// A pool without a frame. Takes no memory.
    pub fn empty(alloc: Global) -> Pool
        ensures { result ≡ [] }
    {
        Pool {
            frames: Vec::new(alloc),
            total: 0,
            given: 0,
            first: 0,
        }
    }

    /// A pool of so many frames, all of them free.
    pub fn new(alloc: Global, frames: u32) -> Result<Pool, Memory>
        ensures { IfOk result (λ pool. pool ≡ replicate frames None) }
    {
        let room = Vec::with_capacity(alloc, frames as usize)?;
        Ok(Pool {
            frames: room,
            total: frames,
            given: 0,
            first: 0,
        })
    }

    /// A free frame, which is zeroed and out from now on. `None` where no frame is free.
    pub fn take(&mut self) -> Option<Frame>
        ensures none { IsNone result ↔ (free_count self.old ≡ 0) }
        ensures was_free { IfSome result (λ frame. IsFree self.old frame) }
        ensures taken { IfSome result (λ frame. self.new ≡ slice_set self.old frame (Some zeros)) }
        ensures unchanged { IfNone result (self.new ≡ self.old) }
    {
        if self.given == 0 {
            if self.frames.len() == self.total as usize {
                return None;
            }
            let number = self.frames.len() as u32;
            self.frames.push_reserved(zeroed());
            return Some(Frame { number });
        }
        let number = self.first;
        let after = next(&self.frames[number as usize]);
        zero(&mut self.frames[number as usize]);
        self.first = after;
        self.given -= 1;
        Some(Frame { number })
    }

    /// Frees a frame that is out of this pool. It is the next that `take` hands out.
    pub fn give(&mut self, frame: Frame)
        requires { IsOut self.old frame }
        ensures { self.new ≡ slice_set self.old frame None }
    {
        let Frame { number } = frame;
        link(&mut self.frames[number as usize], self.first);
        self.first = number;
        self.given += 1;
    }

    /// The 256 bytes of a frame that is out of this pool.
    pub fn bytes(&self, frame: &Frame) -> &[u8]
        requires { IsOut self.now frame.now }
        ensures value { frame_bytes self.now frame.now ≡ Some result.now }
        ensures length { length result.now ≡ 256 }
    {
        &self.frames[frame.number as usize]
    }

    /// The 256 bytes of a frame that is out of this pool, to be written. The other frames stay.
    pub fn bytes_mut(&mut self, frame: &Frame) -> &mut [u8]
        requires { IsOut self.old frame.now }
        ensures* writes_back { sem 𝓛 (LendsBytes self.entry frame.now result) }
        ensures value { frame_bytes self.old frame.now ≡ Some result.now }
        ensures length { length result.now ≡ 256 }
    {
        prove!(self.bytes(frame).len() == 256);
        self.frames[frame.number as usize].as_mut_slice()
    }

    /// How many frames are free. These and those that are out are all; nothing takes memory after `new`.
    pub fn free(&self) -> u32
        ensures free { result ≡ free_count self.now }
        ensures rest { result + out_count self.now ≡ length self.now }
    {
        self.given + (self.total - self.frames.len() as u32)
    }

    /// How many frames there are.
    pub fn total(&self) -> u32
        ensures { result ≡ length self.now }
    {
        self.total
    }
}
