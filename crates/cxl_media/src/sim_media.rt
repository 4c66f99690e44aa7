//! The shipped media: blocks in the frames of a pool.

ghost use Rattle.std.specs.Prelude.{◌≡◌, ◌+◌, ◌/◌, ◌%◌, ◌^◌, ◌≤◌, ◌↔◌, true, false, IsSome, IsTrue, Some, None, IfOk, IfSome, length};
ghost use Rattle.std.specs.Option.{option_copied};
ghost use Rattle.std.specs.FinMap as map;
ghost use Rattle.cxl_enc.specs.Limits.{frame_limit};
ghost use Rattle.cxl_media.specs.Pool.{frame_bytes, free_count};
ghost use Rattle.cxl_media.specs.Blocks.{Key, key_of};

use crate::bytes::{is_between, overwrite, read_block, read_zeros};
use crate::index::Index;
use crate::media::{Full, Media};
use crate::roll::{At, Roll};
use crate::zones::{ZONE_BLOCKS, Zones};
use crate::{Frame, Pool};
use cxl_enc::Memory;
use std::alloc::Global;
use std::marker::Model;

/// The shipped media: each block stands in a frame of a pool, which an index finds. What was never put is not touched.
#[derive(Drop)]
pub struct SimMedia {
    pool: Pool,
    index: Index,
    zones: Zones,
}

impl Model for SimMedia {
    ghost use Rattle.cxl_media.specs.Sim.{Shipped, coded_shipped, IsShipped};

    ghost Value = { Shipped };

    ghost coded = { coded_shipped };

    ghost view = { λ m. record { pool = m.pool; cells = m.index.cells } };

    ghost invariant = { λ m. IsShipped m.pool m.index.cells m.index.room m.zones };
}

impl SimMedia {
    ghost use Rattle.std.specs.FinMap as map;
    ghost use Rattle.cxl_media.specs.MediaState.{frame_count};
    ghost use Rattle.cxl_media.specs.Table.{frames_in};
    ghost use Rattle.cxl_media.specs.Blocks.{is_between, scrubbed};
    ghost use Rattle.cxl_media.specs.Sim.{shipped_blocks};

    /// Media without a block and without a frame, until it is powered on. Takes no memory.
    pub fn new(alloc: Global) -> SimMedia
        ensures blocks { (⟦<SimMedia as Media>⟧.state result).blocks ≡ map.empty }
        ensures free { (⟦<SimMedia as Media>⟧.state result).free ≡ 0 }
    {
        SimMedia {
            pool: Pool::empty(alloc),
            index: Index::empty(alloc),
            zones: Zones::empty(alloc),
        }
    }

    // Media without a block, with so many free frames.
    fn with_frames(alloc: Global, frames: u32) -> Result<SimMedia, Memory>
        requires some { 1 ≤ frames }
        requires few { frames ≤ frame_limit }
        ensures blocks { IfOk result (λ media. shipped_blocks media ≡ map.empty) }
        ensures free { IfOk result (λ media. free_count media.pool ≡ frames) }
    {
        let pool = Pool::new(alloc, frames)?;
        let index = Index::new(alloc, frames)?;
        let zones = Zones::new(alloc, frames)?;
        Ok(SimMedia { pool, index, zones })
    }

    // Seeks each block between two device addresses of an endpoint, and takes out those that there are.
    fn scrub_blocks(&mut self, ep: u32, from: u64, to: u64)
        requires from { from % 256 ≡ 0 }
        requires to { to % 256 ≡ 0 }
        ensures blocks { shipped_blocks self.new ≡ scrubbed (shipped_blocks self.old) ep from to }
        ensures frames { free_count self.new.pool + map.len (shipped_blocks self.new)
            ≡ free_count self.old.pool + map.len (shipped_blocks self.old) }
    {
        for number in from / 256..to / 256 {
            if let Some(place) = self.index.place(ep, number) {
                let frame = self.index.remove(place);
                self.zones.remove(frame.number());
                self.pool.give(frame);
            }
        }
    }

    // Goes through the blocks of the zones of one home, and takes out those between two device addresses of an endpoint.
    fn scrub_zone(&mut self, ep: u32, zone: u64, from: u64, to: u64)
        requires from { from % 256 ≡ 0 }
        requires to { to % 256 ≡ 0 }
        ensures kept { (key : Key) → is_between ep from to key ≡ false → map.get (shipped_blocks self.new) key ≡ map.get (shipped_blocks self.old) key }
        ensures fewer { (key : Key) → map.get (shipped_blocks self.old) key ≡ None → map.get (shipped_blocks self.new) key ≡ None }
        ensures gone { (key : Key) → is_between ep from to key ≡ true → key.1 / 2 ^ 20 ≡ zone → map.get (shipped_blocks self.new) key ≡ None }
        ensures frames { free_count self.new.pool + map.len (shipped_blocks self.new)
            ≡ free_count self.old.pool + map.len (shipped_blocks self.old) }
    {
        let mut at = self.zones.first(ep, zone);
        for _ in 0..self.index.len() + 1 {
            if at == 0 {
                return;
            }
            let node = self.zones.node(at - 1);
            at = node.next;
            if is_between(node.ep, node.number, ep, from, to) {
                if let Some(place) = self.index.place(node.ep, node.number) {
                    let frame = self.index.remove(place);
                    self.zones.remove(frame.number());
                    self.pool.give(frame);
                }
            }
        }
        // A chain has each block once, so its end was met. Where it was not, all blocks are gone through.
        self.scrub_places(ep, from, to);
    }

    // Goes through the blocks of the zones between two device addresses of an endpoint, and takes out those between.
    fn scrub_zones(&mut self, ep: u32, from: u64, to: u64)
        requires from { from % 256 ≡ 0 }
        requires to { to % 256 ≡ 0 }
        ensures blocks { shipped_blocks self.new ≡ scrubbed (shipped_blocks self.old) ep from to }
        ensures frames { free_count self.new.pool + map.len (shipped_blocks self.new)
            ≡ free_count self.old.pool + map.len (shipped_blocks self.old) }
    {
        for zone in from / 256 / ZONE_BLOCKS..(to / 256 + (ZONE_BLOCKS - 1)) / ZONE_BLOCKS {
            self.scrub_zone(ep, zone, from, to);
        }
    }

    // Goes through all blocks, from the last place down, and takes out those between two device addresses of an endpoint.
    fn scrub_places(&mut self, ep: u32, from: u64, to: u64)
        requires from { from % 256 ≡ 0 }
        requires to { to % 256 ≡ 0 }
        ensures blocks { shipped_blocks self.new ≡ scrubbed (shipped_blocks self.old) ep from to }
        ensures frames { free_count self.new.pool + map.len (shipped_blocks self.new)
            ≡ free_count self.old.pool + map.len (shipped_blocks self.old) }
    {
        for place in (0..self.index.len()).rev() {
            if self.index.has_between(place, ep, from, to) {
                let frame = self.index.remove(place);
                self.zones.remove(frame.number());
                self.pool.give(frame);
            }
        }
    }

    /// The pool in whose frames the blocks stand.
    pub fn pool(&self) -> &Pool
        ensures value { result.now ≡ self.now.pool }
        ensures free { free_count result.now ≡ (⟦<SimMedia as Media>⟧.state self.now).free }
        ensures total { length result.now ≡ frame_count (⟦<SimMedia as Media>⟧.state self.now) }
    {
        &self.pool
    }

    /// The frame of the block of a device address, where it is in the map: it has the bytes of that block, and of no
    /// other.
    pub fn frame(&self, ep: u32, dpa: u64) -> Option<&Frame>
        ensures value { option_copied result ≡ map.get (frames_in self.now.cells) (key_of ep dpa) }
        ensures there { IsSome result ↔ IsTrue (map.contains_key (⟦<SimMedia as Media>⟧.state self.now).blocks (key_of ep dpa)) }
        ensures bytes { IfSome result (λ frame. frame_bytes self.now.pool frame.now ≡ map.get (⟦<SimMedia as Media>⟧.state self.now).blocks (key_of ep dpa)) }
        ensures apart { IfSome result (λ frame. (key : Key) → map.get (frames_in self.now.cells) key ≡ Some frame.now → key ≡ key_of ep dpa) }
    {
        self.index.find(ep, dpa / 256)
    }
}

impl Media for SimMedia {
    ghost use Rattle.cxl_media.specs.Sim.{shipped_state};

    ghost state = { shipped_state };

    fn power_on(&mut self, alloc: Global, frames: u32) -> Result<(), Memory> {
        let media = SimMedia::with_frames(alloc, frames)?;
        *self = media;
        Ok(())
    }

    fn get(&self, ep: u32, dpa: u64, into: &mut [u8]) {
        let at = (dpa % 256) as usize;
        match self.index.find(ep, dpa / 256) {
            Some(frame) => read_block(self.pool.bytes(frame), at, into),
            None => read_zeros(at, into),
        }
    }

    fn need(&self, ep: u32, dpa: u64) -> u32 {
        match self.index.find(ep, dpa / 256) {
            Some(_) => 0,
            None => 1,
        }
    }

    fn put(&mut self, ep: u32, dpa: u64, bytes: &[u8]) -> Result<(), Full> {
        let at = (dpa % 256) as usize;
        let number = dpa / 256;
        if let Some(frame) = self.index.find(ep, number) {
            overwrite(self.pool.bytes_mut(frame), at, bytes);
            return Ok(());
        }
        let Some(frame) = self.pool.take() else {
            return Err(Full);
        };
        overwrite(self.pool.bytes_mut(&frame), at, bytes);
        let place = frame.number();
        self.index.add(ep, number, frame);
        self.zones.add(place, ep, number);
        Ok(())
    }

    fn scrub(&mut self, ep: u32, from: u64, to: u64) {
        // Whichever are fewer: the blocks that there are, those that there could be between the addresses, or the zones.
        let blocks = self.index.len() as u64;
        if (to - from) / 256 < blocks {
            self.scrub_blocks(ep, from, to);
        } else if (to - from) / 256 / ZONE_BLOCKS < blocks {
            self.scrub_zones(ep, from, to);
        } else {
            self.scrub_places(ep, from, to);
        }
    }

    fn free(&self) -> u32 {
        self.pool.free()
    }
}

impl Roll for SimMedia {
    ghost use Rattle.cxl_media.specs.Sim.{shipped_roll};

    ghost roll = { shipped_roll };

    fn places(&self) -> u32 {
        self.index.len() as u32
    }

    fn at(&self, i: u32) -> Option<At> {
        match self.index.at(i as usize) {
            Some(cell) => Some(At {
                ep: cell.ep,
                block: cell.number,
            }),
            None => None,
        }
    }
}
