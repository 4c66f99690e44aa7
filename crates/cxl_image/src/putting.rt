//! A block with another decoder.

ghost use Rattle.std.specs.Prelude.{◌≡◌, ◌<◌, length};
ghost use Rattle.cxl_regs.specs.Registers.{IsBlock, IsDecoder};
ghost use Rattle.cxl_regs.specs.Writes.{with_decoder};

use cxl_regs::{Block, Decoder, MOST_DECODERS};

/// The block whose decoder of this number has these registers; all else is as in this block.
pub(crate) fn with_decoder(block: &Block, index: u8, d: &Decoder) -> Block
    requires here { index < length block.now.decoders }
    requires decoder { IsDecoder block.now.endpoint d.now }
    ensures value { result ≡ with_decoder block.now index d.now }
    ensures block { IsBlock result }
{
    let count = block.count();
    let mut decoders = [Decoder::RESET; MOST_DECODERS];
    for i in 0..count {
        decoders[i as usize] = block.decoder(i);
    }
    decoders[index as usize] = *d;
    Block::with_decoders(
        block.cap(),
        block.endpoint(),
        block.enabled(),
        &decoders[..count as usize],
    )
}
