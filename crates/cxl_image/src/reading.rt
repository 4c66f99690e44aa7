//! The reader.

ghost use Rattle.std.specs.Prelude.{◌≡◌, ◌+◌, ◌*◌, ◌≤◌, IsTrue, not, ◌||◌, List, length, map, take, All, Ok, Err, IfOk, IfErr};
ghost use Rattle.std.specs.List.{range_with_len};
ghost use Rattle.cxl_enc.specs.Bits.{global_enable};
ghost use Rattle.cxl_enc.specs.Caps.{is_legal_cap};
ghost use Rattle.cxl_regs.specs.Registers.{Registers, IsBlock, IsDecoder};
ghost use Rattle.cxl_regs.specs.Words.{has_bit};
ghost use Rattle.cxl_topo.specs.Kinds.{is_endpoint};
ghost use Rattle.cxl_image.specs.declared.fault.ImageFault.{ImageFault};
ghost use Rattle.cxl_image.specs.Images.{HasCapsOf};
ghost use Rattle.cxl_image.specs.Fields.{end_of, block_size, word_from, decoder_from, block_from};
ghost use Rattle.cxl_image.specs.File.{AgreesUpTo, IsImageFile, IsFirstImageFault, IsImageFaultOf, IsImageAnswer};

use crate::fault::ImageFault;
use crate::image::Image;
use crate::judging::{HEAD, first_image_fault};
use crate::nodes::block_size;
use crate::words::{decoder_words, word_from};
use cxl_enc::{GLOBAL_ENABLE, Memory, has_bit};
use cxl_regs::{Block, Decoder, MOST_DECODERS, decoder_count, decoder_of};
use cxl_topo::{Node, Topo};
use std::alloc::Global;

/// The image of a file for a topology, or the file's first fault. Reserved bits and words, all of a port's word 0x4 and
/// the bits of a capability word that stand for nothing may hold anything and are dropped. A file may hold any register
/// state, also one that no writes lead to. The bytes may be any, and any number of them: the first fault stands before
/// byte 344,076, behind which no block of a topology ends. Takes memory. (This project's rule.)
pub fn read_image(alloc: Global, bytes: &[u8], topo: &Topo) -> Result<Image, ImageFault>
    ensures image { IfOk result (λ image. IsImageFile bytes.now topo.now.nodes image) }
    ensures caps { IfOk result (λ image. HasCapsOf image topo.now.nodes) }
    ensures fault { IfErr result (λ fault. IsImageFaultOf bytes.now topo.now.nodes fault) }
    // The image of a file is read, and a first fault is answered, unless memory runs out.
    ensures only_image { (image : List Registers) → IsImageFile bytes.now topo.now.nodes image → IsImageAnswer result (Ok image) }
    ensures only_fault { (fault : ImageFault) → IsFirstImageFault bytes.now topo.now.nodes fault → IsImageAnswer result (Err fault) }
{
    image_of(alloc, bytes, topo)
}

fn image_of(alloc: Global, bytes: &[u8], topo: &Topo) -> Result<Image, ImageFault>
    ensures image { IfOk result (λ image. IsImageFile bytes.now topo.now.nodes image) }
    ensures fault { IfErr result (λ fault. IsImageFaultOf bytes.now topo.now.nodes fault) }
{
    if let Some(fault) = first_image_fault(bytes, topo) {
        return Err(fault);
    }
    Ok(sound_image(alloc, bytes, topo)?)
}

/// The image of a file without fault.
fn sound_image(alloc: Global, bytes: &[u8], topo: &Topo) -> Result<Image, Memory>
    requires whole { length bytes.now ≡ end_of topo.now.nodes }
    requires agrees { AgreesUpTo bytes.now topo.now.nodes (end_of topo.now.nodes) }
    ensures { IfOk result (λ image. IsImageFile bytes.now topo.now.nodes image) }
{
    let mut blocks = Vec::with_capacity(alloc, topo.count() as usize)?;
    let mut at = HEAD;
    for i in 0..topo.count() {
        let node = topo.node(i);
        blocks.push_reserved(block_from(bytes, at, node));
        at += block_size(node);
    }
    Ok(Image::with_blocks(blocks))
}

/// The block of a node, whose words begin at byte place `at`.
fn block_from(bytes: &[u8], at: usize, node: &Node) -> Block
    requires legal { IsTrue (is_legal_cap node.now.cap (is_endpoint node.now.kind)) }
    requires fits { at + block_size node.now ≤ length bytes.now }
    ensures value { result ≡ block_from bytes.now at node.now }
    ensures block { IsBlock result }
{
    let endpoint = node.is_endpoint();
    let enabled = decodes(bytes, at, endpoint);
    let count = decoder_count(node.cap) as usize;
    let decoders = decoders_from(bytes, at + 16, count, endpoint);
    Block::with_decoders(node.cap, endpoint, enabled, &decoders[..count])
}

/// Whether the block that begins at byte place `at` decodes.
fn decodes(bytes: &[u8], at: usize, endpoint: bool) -> bool
    requires { at + 8 ≤ length bytes.now }
    ensures { result ≡ (not endpoint || has_bit (word_from bytes.now (at + 4)) global_enable) }
{
    !endpoint || has_bit(word_from(bytes, at + 4), GLOBAL_ENABLE)
}

/// So many decoders, of which the first begins at byte place `at`, and others after reset behind them.
fn decoders_from(bytes: &[u8], at: usize, count: usize, endpoint: bool) -> [Decoder; MOST_DECODERS]
    requires fits { at + 32 * count ≤ length bytes.now }
    requires few { count ≤ 10 }
    ensures value { take count result ≡ map (λ i. decoder_from bytes.now endpoint (at + 32 * i)) (range_with_len 0 count) }
    ensures each { All (IsDecoder endpoint) (take count result) }
{
    let mut decoders = [Decoder::RESET; MOST_DECODERS];
    for i in 0..count {
        decoders[i] = decoder_of(&decoder_words(bytes, at + 32 * i), endpoint);
    }
    decoders
}
