//! The blocks of an image as lines.

ghost use Rattle.std.specs.Prelude.{◌≡◌, ◌++◌, ◌<◌, OnOk, length};
ghost use Rattle.std.specs.List.{flat_map, enumerate_from};
ghost use Rattle.cxl_image.specs.Images.{HasCapsOf};
ghost use Rattle.cxl_reads.specs.Decoders.{block_text, head_text, block_line, decoder_line, block_lines, blocks_text};

use crate::decoder_lines::put_decoder_line;
use cxl_enc::Memory;
use cxl_image::Image;
use cxl_io::put_number;
use cxl_regs::Block;
use cxl_text::put_address;
use cxl_topo::Topo;

/// Appends the lines of all blocks of an image over its topology.
pub(crate) fn put_blocks(out: &mut Vec<u8>, image: &Image, topo: &Topo) -> Result<(), Memory>
    requires { HasCapsOf image.now topo.now.nodes }
    ensures { OnOk result (out.new.items ≡ out.old.items ++ blocks_text topo.now.nodes image.now) }
{
    for node in 0..image.count() {
        put_block(out, node, image.block(node), topo)?;
    }
    Ok(())
}

/// Appends the line of a node's block, and those of its decoders.
fn put_block(out: &mut Vec<u8>, node: u32, block: &Block, topo: &Topo) -> Result<(), Memory>
    requires { node < length topo.now.nodes }
    ensures { OnOk result (out.new.items ≡ out.old.items ++ block_lines topo.now.nodes (node, block.now)) }
{
    put_block_line(out, node, block, topo)?;
    put_decoders(out, node, block, topo)
}

fn put_block_line(out: &mut Vec<u8>, node: u32, block: &Block, topo: &Topo) -> Result<(), Memory>
    requires { node < length topo.now.nodes }
    ensures { OnOk result (out.new.items ≡ out.old.items ++ block_line topo.now.nodes node block.now) }
{
    put_block_name(out, node, topo)?;
    put_head(out, block)?;
    out.push(b'\n')?;
    Ok(())
}

#[tactic(auto, unfolding(crate::specs::Decoders::block_text))]
fn put_block_name(out: &mut Vec<u8>, node: u32, topo: &Topo) -> Result<(), Memory>
    requires { node < length topo.now.nodes }
    ensures { OnOk result (out.new.items ≡ out.old.items ++ block_text topo.now.nodes node) }
{
    out.extend_from_slice(b"block ")?;
    put_number(out, u64::from(node))?;
    out.extend_from_slice(b" ")?;
    out.extend_from_slice(topo.node(node).name.bytes())?;
    Ok(())
}

#[tactic(auto, unfolding(crate::specs::Decoders::head_text))]
fn put_head(out: &mut Vec<u8>, block: &Block) -> Result<(), Memory>
    ensures { OnOk result (out.new.items ≡ out.old.items ++ head_text block.now) }
{
    let head = block.head_words();
    out.extend_from_slice(b" cap ")?;
    put_address(out, u64::from(head[0]))?;
    out.extend_from_slice(b" control ")?;
    put_address(out, u64::from(head[1]))
}

/// Appends a line for each decoder of a block.
fn put_decoders(out: &mut Vec<u8>, node: u32, block: &Block, topo: &Topo) -> Result<(), Memory>
    requires { node < length topo.now.nodes }
    ensures { OnOk result (out.new.items ≡ out.old.items
        ++ flat_map (decoder_line topo.now.nodes node block.now.endpoint) (enumerate_from 0 block.now.decoders)) }
{
    let endpoint = block.endpoint();
    for i in 0..block.count() {
        put_decoder_line(out, node, endpoint, i, &block.decoder(i), topo)?;
    }
    Ok(())
}
