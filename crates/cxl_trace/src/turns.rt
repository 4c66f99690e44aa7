//! What one node does with an address, be it that it leads no further.

ghost use Rattle.std.specs.Prelude.{◌≡◌, ◌+◌, ◌<◌, ◌≤◌, [], false, true, length, slice_get, IsSomeAnd};
ghost use Rattle.cxl_enc.specs.Limits.{address_limit};
ghost use Rattle.cxl_topo.specs.Tree.{forwards_at};
ghost use Rattle.cxl_topo.specs.Faults.{IsTree};
ghost use Rattle.cxl_regs.specs.Reading.{holds_address};
ghost use Rattle.cxl_span.specs.Breaches.{BlockKeeps};
ghost use Rattle.cxl_image.specs.Images.{HasCapsOf};
ghost use Rattle.cxl_model.specs.System.{system_of, KeepsBlock, decoder_at};
ghost use Rattle.cxl_walk.specs.inner.Calls.{Makes};
ghost use Rattle.cxl_trace.specs.inner.Turns.{turn_move, lost_move, traced_byte};

use crate::trace::{EndByte, WalkEnd};
use cxl_image::Image;
use cxl_model::{Miss, Step};
use cxl_regs::Block;
use cxl_span::{block_breach, endpoint_place_of, ranges_rise, spans_lie_in_partitions, start_of};
use cxl_topo::{Capacity, Topo, capacity_at};

/// What a node does with an address.
#[derive(Clone, Copy)]
pub(crate) enum Turn {
    /// It forwards it to its only child.
    Down(u32),
    /// A port's decoder sends it to a child.
    By(Step, u32),
    /// The walk ends there.
    Ends(WalkEnd),
}

/// What a node does with an address.
pub(crate) fn turn_at(image: &Image, topo: &Topo, node: u32, h: u64) -> Turn
    requires tree { IsTree topo.now.nodes }
    requires caps { HasCapsOf image.now topo.now.nodes }
    requires here { node < length topo.now.nodes }
    ensures { Makes image.now topo.now h node (turn_move result) }
{
    if !topo.forwards(node) {
        return decoding_turn(image, topo, node, h);
    }
    match topo.least_child(node) {
        Some(child) => Turn::Down(child),
        None => lost(Miss::NoChild(node)),
    }
}

/// The walk ends here, at no byte.
fn lost(miss: Miss) -> Turn
    ensures { turn_move result ≡ lost_move miss }
{
    Turn::Ends(WalkEnd::Lost(miss))
}

/// What a node that does not forward does with an address.
fn decoding_turn(image: &Image, topo: &Topo, node: u32, h: u64) -> Turn
    requires tree { IsTree topo.now.nodes }
    requires caps { HasCapsOf image.now topo.now.nodes }
    requires here { node < length topo.now.nodes }
    requires own { forwards_at topo.now.nodes node ≡ false }
    ensures { Makes image.now topo.now h node (turn_move result) }
{
    let block = image.block(node);
    let capacity = capacity_at(topo, node);
    if block_breach(block, capacity.ram, capacity.pmem).is_some() {
        return lost(Miss::BadBlock(node));
    }
    for i in 0..block.count() {
        if block.decoder(i).holds_address(h) {
            return turn_by(image, topo, node, i, h);
        }
    }
    lost(Miss::NoDecoder(node))
}

/// What a node does with an address by the decoder that holds it.
fn turn_by(image: &Image, topo: &Topo, node: u32, i: u8, h: u64) -> Turn
    requires caps { HasCapsOf image.now topo.now.nodes }
    requires here { node < length topo.now.nodes }
    requires own { forwards_at topo.now.nodes node ≡ false }
    requires keeps { KeepsBlock (system_of image.now topo.now []) node }
    requires holds { IsSomeAnd (decoder_at (system_of image.now topo.now []) node i) (λ d. holds_address d h ≡ true) }
    ensures { Makes image.now topo.now h node (turn_move result) }
{
    let block = image.block(node);
    let d = block.decoder(i);
    if block.endpoint() {
        return Turn::Ends(WalkEnd::Comes(byte_by(block, &capacity_at(topo, node), node, i, h)));
    }
    let entry = d.entry_of(h);
    let step = Step {
        node,
        decoder: i,
        entry,
    };
    match topo.child(node, d.entry_at(entry)) {
        Some(child) => Turn::By(step, child),
        None => lost(Miss::NoChild(node)),
    }
}

/// The byte to which the decoder of an endpoint that holds an address sends it.
fn byte_by(block: &Block, capacity: &Capacity, node: u32, i: u8, h: u64) -> EndByte
    requires small { capacity.now.ram + capacity.now.pmem ≤ address_limit }
    requires keeps { BlockKeeps block.now capacity.now.ram capacity.now.pmem }
    requires endpoint { block.now.endpoint ≡ true }
    requires holds { IsSomeAnd (slice_get block.now.decoders i) (λ d. holds_address d h ≡ true) }
    ensures { IsSomeAnd (slice_get block.now.decoders i) (λ d. result ≡ traced_byte block.now h node i d) }
{
    ranges_rise();
    spans_lie_in_partitions();
    let d = block.decoder(i);
    let dpa = endpoint_place_of(start_of(block, i), &d, h);
    EndByte {
        endpoint: node,
        decoder: i,
        base: d.base,
        dpa,
    }
}
