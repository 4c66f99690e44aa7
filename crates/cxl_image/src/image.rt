//! The register image of a topology: a decoder block for each of its nodes.

ghost use Rattle.std.specs.Prelude.{◌≡◌, ◌≢◌, ℕ, ◌<◌, List, length, slice_get, Some, IfOk, IsSomeAnd};
ghost use Rattle.cxl_regs.specs.Registers.{IsBlock};
ghost use Rattle.cxl_regs.specs.Blocks.{blocks_after};
ghost use Rattle.cxl_regs.specs.Writes.{after_word};
ghost use Rattle.cxl_topo.specs.declared.node.Node.{Node};
ghost use Rattle.cxl_image.specs.Images.{reset_blocks, IsImage, HasCapsOf, CanPut, blocks_with};

use crate::putting::with_decoder;
use cxl_enc::Memory;
use cxl_regs::{Block, Decoder, Effect, copies, write_laws};
use cxl_topo::Topo;
use std::alloc::Global;
use std::marker::Model;

/// The decoder blocks of all nodes of a topology, in its order. Contracts see it as the list of its blocks.
#[derive(Drop)]
pub struct Image {
    blocks: Vec<Block>,
}

impl Model for Image {
    ghost use Rattle.std.specs.Prelude.{List};
    ghost use Rattle.cxl_regs.specs.Registers.{Registers};
    ghost use Rattle.cxl_image.specs.Images.{IsImage};

    ghost Value = { List Registers };

    ghost view = { λ image. image.blocks.items };

    ghost invariant = { λ image. IsImage image.blocks.items };
}

impl Image {
    /// The image of a topology after reset. Takes memory.
    pub fn new(alloc: Global, topo: &Topo) -> Result<Image, Memory>
        ensures reset { IfOk result (λ image. image ≡ reset_blocks topo.now.nodes) }
        ensures caps { IfOk result (λ image. HasCapsOf image topo.now.nodes) }
    {
        let mut blocks = Vec::with_capacity(alloc, topo.count() as usize)?;
        for i in 0..topo.count() {
            let node = topo.node(i);
            blocks.push_reserved(Block::new(node.cap, node.is_endpoint()));
        }
        Ok(Image { blocks })
    }

    /// The image with these blocks. Takes no memory.
    pub(crate) fn with_blocks(blocks: Vec<Block>) -> Image
        requires { IsImage blocks.items }
        ensures { result ≡ blocks.items }
    {
        Image { blocks }
    }

    /// An equal image. Takes memory.
    pub fn copy(&self, alloc: Global) -> Result<Image, Memory>
        ensures { IfOk result (λ image. image ≡ self.now) }
    {
        let blocks = copies(alloc, &self.blocks)?;
        Ok(Image { blocks })
    }

    /// How many blocks there are.
    pub fn count(&self) -> u32
        ensures count { result ≡ length self.now }
        ensures image { IsImage self.now }
    {
        self.blocks.len() as u32
    }

    /// All blocks, by node.
    pub fn blocks(&self) -> &[Block]
        ensures value { result.now ≡ self.now }
        ensures image { IsImage self.now }
    {
        &self.blocks
    }

    /// The block of a node.
    pub fn block(&self, node: u32) -> &Block
        requires { node < length self.now }
        ensures value { slice_get self.now node ≡ Some result.now }
        ensures block { IsBlock result.now }
        ensures image { IsImage self.now }
    {
        &self.blocks[node as usize]
    }

    /// Writes a word of a node's block, by the write rules of blocks. The other blocks stay as they are.
    pub fn write32(&mut self, node: u32, off: u32, value: u32) -> Effect
        requires { node < length self.old }
        ensures left { self.new ≡ blocks_after self.old node off value }
        ensures told { IsSomeAnd (slice_get self.old node) (λ block. result ≡ (after_word block off value).effect) }
        ensures others { (i : ℕ) → i ≢ node → slice_get self.new i ≡ slice_get self.old i }
        ensures same_caps { (nodes : List Node) → HasCapsOf self.old nodes → HasCapsOf self.new nodes }
    {
        write_laws();
        self.blocks[node as usize].write32(off, value)
    }

    /// Gives a decoder of a node's block these registers, without the write rules of blocks: so an image can be looked at to which no
    /// writes lead. All else stays as it is.
    pub fn put_decoder(&mut self, node: u32, index: u8, d: &Decoder)
        requires { CanPut self.old node index d.now }
        ensures left { self.new ≡ blocks_with self.old node index d.now }
        ensures same_caps { (nodes : List Node) → HasCapsOf self.old nodes → HasCapsOf self.new nodes }
    {
        let block = with_decoder(&self.blocks[node as usize], index, d);
        self.blocks[node as usize] = block;
    }
}
