//! The writer.

ghost use Rattle.std.specs.Prelude.{◌≡◌, ◌++◌, ◌≤◌, List, length, codes, IfOk, OnOk};
ghost use Rattle.std.specs.List.{flat_map};
ghost use Rattle.cxl_regs.specs.Registers.{Registers};
ghost use Rattle.cxl_topo.specs.declared.node.Node.{Node};
ghost use Rattle.cxl_image.specs.Images.{IsImage, HasCapsOf};
ghost use Rattle.cxl_image.specs.Fields.{image_limit};
ghost use Rattle.cxl_image.specs.File.{IsImageFile};
ghost use Rattle.cxl_image.specs.Text.{word_bytes, block_text, image_text};

use crate::image::Image;
use crate::judging::MAGIC;
use crate::words::{append_word, append_words};
use cxl_enc::Memory;
use cxl_regs::{Block, words_of, words_stand_for_decoder};
use std::alloc::Global;

/// The file of an image, at most 344,076 bytes, with zero wherever a reader drops what stands there. Takes memory for
/// it. (This project's rule.)
pub fn write_image(alloc: Global, image: &Image) -> Result<Vec<u8>, Memory>
    ensures text { IfOk result (λ bytes. bytes.items ≡ image_text image.now) }
    ensures fits { IfOk result (λ bytes. length bytes.items ≤ image_limit) }
    // It is a file of the image and of no other, so that reading it gives the image back.
    ensures file { IfOk result (λ bytes. (nodes : List Node) → HasCapsOf image.now nodes → IsImageFile bytes.items nodes image.now) }
    ensures only { IfOk result (λ bytes. (nodes : List Node) (other : List Registers) → HasCapsOf image.now nodes → IsImageFile bytes.items nodes other → other ≡ image.now) }
{
    words_stand_for_decoder();
    text_of(alloc, image)
}

fn text_of(alloc: Global, image: &Image) -> Result<Vec<u8>, Memory>
    ensures text { IfOk result (λ bytes. bytes.items ≡ image_text image.now) }
    ensures image { IsImage image.now }
{
    let mut out = Vec::new(alloc);
    put_opening(&mut out, image.count())?;
    put_blocks(&mut out, image.blocks())?;
    Ok(out)
}

/// Appends the magic and the number of nodes.
fn put_opening(out: &mut Vec<u8>, count: u32) -> Result<(), Memory>
    ensures { OnOk result (out.new.items ≡ out.old.items ++ codes "CXLHDM01" ++ word_bytes count) }
{
    out.extend_from_slice(MAGIC)?;
    append_word(out, count)
}

/// Appends the words of all blocks.
fn put_blocks(out: &mut Vec<u8>, blocks: &[Block]) -> Result<(), Memory>
    ensures { OnOk result (out.new.items ≡ out.old.items ++ flat_map block_text blocks.now) }
{
    for block in blocks {
        put_block(out, block)?;
    }
    Ok(())
}

/// Appends all words of a block.
fn put_block(out: &mut Vec<u8>, block: &Block) -> Result<(), Memory>
    ensures { OnOk result (out.new.items ≡ out.old.items ++ block_text block.now) }
{
    append_words(out, &block.head_words())?;
    for i in 0..block.count() {
        let decoder = block.decoder(i);
        append_words(out, &words_of(&decoder))?;
    }
    Ok(())
}
