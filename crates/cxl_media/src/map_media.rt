//! Media as a plain list of blocks, to compare the shipped one with.

ghost use Rattle.std.specs.Prelude.{◌≡◌, ◌+◌, ◌%◌, ◌≤◌, ◌↔◌, IsTrue, None, IfSome, IfNone, length, filter, not, vec_capacity};
ghost use Rattle.std.specs.FinMap.{find};
ghost use Rattle.cxl_media.specs.Blocks.{key_cmp, overwritten, is_between};
ghost use Rattle.cxl_media.specs.MapInside.{items_of, IsItemAt};
ghost use Rattle.cxl_media.specs.Pool.{zeros};

use crate::bytes::{is_between, overwrite, read_block, read_zeros};
use crate::media::{Full, Media};
use crate::roll::{At, Roll};
use cxl_enc::Memory;
use std::alloc::Global;
use std::marker::Model;

/// Media as plain as can be, to compare the shipped one with: a vector of blocks that is searched from the front.
#[derive(Drop)]
pub struct MapMedia {
    blocks: Vec<Block>,
    // How many blocks there may be. The vector has room for them.
    frames: usize,
}

#[derive(Drop)]
struct Block {
    ep: u32,
    number: u64,
    bytes: [u8; 256],
}

impl Model for MapMedia {
    ghost use Rattle.cxl_media.specs.MapInside.{Plain, coded_plain, items_of, IsPlain};

    ghost Value = { Plain };

    ghost coded = { coded_plain };

    ghost use Rattle.std.specs.Prelude.{vec_capacity};

    ghost view = { λ m. record { items = items_of m.blocks.items; frames = m.frames } };

    ghost invariant = { λ m. IsPlain m.blocks.items (vec_capacity m.blocks) m.frames };
}

impl MapMedia {
    ghost use Rattle.std.specs.FinMap.{empty};

    /// Media without a block and without a frame, until it is powered on. Takes no memory.
    pub fn new(alloc: Global) -> MapMedia
        ensures blocks { (⟦<MapMedia as Media>⟧.state result).blocks ≡ empty }
        ensures free { (⟦<MapMedia as Media>⟧.state result).free ≡ 0 }
    {
        MapMedia {
            blocks: Vec::new(alloc),
            frames: 0,
        }
    }
}

impl Media for MapMedia {
    ghost use Rattle.cxl_media.specs.MapInside.{plain_state};

    ghost state = { plain_state };

    fn power_on(&mut self, alloc: Global, frames: u32) -> Result<(), Memory> {
        let blocks = Vec::with_capacity(alloc, frames as usize)?;
        self.blocks = blocks;
        self.frames = frames as usize;
        Ok(())
    }

    fn get(&self, ep: u32, dpa: u64, into: &mut [u8]) {
        let at = (dpa % 256) as usize;
        match index_of_block(&self.blocks, ep, dpa / 256) {
            Some(place) => read_block(self.blocks[place].bytes(), at, into),
            None => read_zeros(at, into),
        }
    }

    fn need(&self, ep: u32, dpa: u64) -> u32 {
        match index_of_block(&self.blocks, ep, dpa / 256) {
            Some(_) => 0,
            None => 1,
        }
    }

    fn put(&mut self, ep: u32, dpa: u64, bytes: &[u8]) -> Result<(), Full> {
        let at = (dpa % 256) as usize;
        let number = dpa / 256;
        if let Some(place) = index_of_block(&self.blocks, ep, number) {
            self.blocks[place].write(at, bytes);
            return Ok(());
        }
        if self.blocks.len() == self.frames {
            return Err(Full);
        }
        let mut block = Block::new(ep, number);
        block.write(at, bytes);
        self.blocks.push_reserved(block);
        Ok(())
    }

    fn scrub(&mut self, ep: u32, from: u64, to: u64) {
        if from == to {
            return;
        }
        keep_outside(&mut self.blocks, ep, from, to);
    }

    fn free(&self) -> u32 {
        (self.frames - self.blocks.len()) as u32
    }
}

impl Roll for MapMedia {
    ghost use Rattle.cxl_media.specs.MapInside.{plain_roll};

    ghost roll = { plain_roll };

    fn places(&self) -> u32 {
        self.blocks.len() as u32
    }

    fn at(&self, i: u32) -> Option<At> {
        let block = &self.blocks[i as usize];
        Some(At {
            ep: block.ep,
            block: block.number,
        })
    }
}

impl Block {
    fn new(ep: u32, number: u64) -> Block
        ensures { result ≡ record { ep = ep; number = number; bytes = zeros } }
    {
        Block {
            ep,
            number,
            bytes: zero_bytes(),
        }
    }

    fn is_at(&self, ep: u32, number: u64) -> bool
        ensures { IsTrue result ↔ ((self.now.ep ≡ ep) × (self.now.number ≡ number)) }
    {
        self.ep == ep && self.number == number
    }

    fn bytes(&self) -> &[u8]
        ensures value { result.now ≡ self.now.bytes }
        ensures whole { length result.now ≡ 256 }
    {
        &self.bytes
    }

    fn write(&mut self, at: usize, bytes: &[u8])
        requires { at + length bytes.now ≤ 256 }
        ensures written { self.new ≡ record self.old { bytes = overwritten self.old.bytes at bytes.now } }
        ensures whole { length self.old.bytes ≡ 256 }
    {
        overwrite(&mut self.bytes, at, bytes);
    }
}

#[tactic(auto, unfolding(crate::specs::Pool::zeros))]
fn zero_bytes() -> [u8; 256]
    ensures { result ≡ zeros }
{
    [0; 256]
}

// The place of a block, from the front.
fn index_of_block(blocks: &[Block], ep: u32, number: u64) -> Option<usize>
    ensures found { IfSome result (λ at. IsItemAt (items_of blocks.now) (ep, number) at) }
    ensures none { IfNone result (find key_cmp (ep, number) (items_of blocks.now) ≡ None) }
{
    for (at, block) in blocks.iter().enumerate() {
        if block.is_at(ep, number) {
            return Some(at);
        }
    }
    None
}

// Drops the blocks between two device addresses of an endpoint.
fn keep_outside(blocks: &mut Vec<Block>, ep: u32, from: u64, to: u64)
    requires from { from % 256 ≡ 0 }
    requires to { to % 256 ≡ 0 }
    ensures kept { blocks.new.items ≡ filter (λ b. not (is_between ep from to (b.ep, b.number))) blocks.old.items }
    ensures room { vec_capacity blocks.new ≡ vec_capacity blocks.old }
{
    blocks.retain(|block| !is_between(block.ep, block.number, ep, from, to));
}
