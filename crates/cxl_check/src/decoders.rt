//! Which decoders of a node have a range. Where the same ranges are committed in the same order, a range has one number in
//! all nodes, so a number that is likely is tried before all others.

ghost use Rattle.std.specs.Prelude.{◌≡◌, ◌<◌, false, length, position, find, slice_get};
ghost use Rattle.std.specs.Option.{option_map_or};
ghost use Rattle.cxl_regs.specs.Reading.{has_range};
ghost use Rattle.cxl_model.specs.Hosts.{as_system};
ghost use Rattle.cxl_model.specs.Accepted.{IsOrderlySystem};
ghost use Rattle.cxl_model.specs.Ranges.{serves, decoder_for, index_for};
ghost use Rattle.cxl_model.specs.System.{blocks_alone};
ghost use Rattle.cxl_check.specs.inner.Holders.{HasOneHolder};

use cxl_image::Image;
use cxl_model::Host;
use cxl_regs::{Block, Decoder, Range};
use cxl_span::one_holder;

/// The number of the committed decoder of a node that has the range. A node without a block has none.
pub(crate) fn index_for(host: &Host, range: &Range, node: u32, likely: u8) -> Option<u8>
    requires { IsOrderlySystem (as_system host.now) }
    ensures { result ≡ index_for (as_system host.now) range.now node }
{
    one_holder();
    if node >= host.image.count() {
        return None;
    }
    index_in(host.image.block(node), range, likely)
}

/// The committed decoder of a node that has the range.
pub(crate) fn decoder_for(host: &Host, range: &Range, node: u32, likely: u8) -> Option<Decoder>
    requires { IsOrderlySystem (as_system host.now) }
    ensures { result ≡ decoder_for (as_system host.now) range.now node }
{
    one_holder();
    if node >= host.image.count() {
        return None;
    }
    let block = host.image.block(node);
    match index_in(block, range, likely) {
        Some(i) => Some(block.decoder(i)),
        None => None,
    }
}

/// Whether a node has a committed decoder of the range.
pub(crate) fn serves(image: &Image, range: &Range, node: u32, likely: u8) -> bool
    ensures { result ≡ serves (blocks_alone image.now) range.now node }
{
    if node >= image.count() {
        return false;
    }
    let block = image.block(node);
    has_range_at(block, range, likely) || first_in(block, range).is_some()
}

/// The number of a block's committed decoder that has the range, where no two have.
fn index_in(block: &Block, range: &Range, likely: u8) -> Option<u8>
    requires { HasOneHolder range.now block.now.decoders }
    ensures { result ≡ position (has_range range.now) block.now.decoders }
{
    if has_range_at(block, range, likely) {
        return Some(likely);
    }
    first_in(block, range)
}

/// Whether a block has a decoder of this number, and it is committed with the range.
fn has_range_at(block: &Block, range: &Range, i: u8) -> bool
    ensures { result ≡ option_map_or (has_range range.now) (slice_get block.now.decoders i) false }
{
    i < block.count() && block.decoder(i).has_range(range)
}

/// The number of the first committed decoder of a block that has the range.
fn first_in(block: &Block, range: &Range) -> Option<u8>
    ensures { result ≡ position (has_range range.now) block.now.decoders }
{
    for i in 0..block.count() {
        if block.decoder(i).has_range(range) {
            return Some(i);
        }
    }
    None
}
