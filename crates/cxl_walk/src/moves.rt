//! What one node does with an address.

ghost use Rattle.std.specs.Prelude.{◌≡◌, ◌+◌, ◌<◌, ◌≤◌, ◌^◌, [], true, false, length, slice_get, IfOk, IfErr, IsSomeAnd};
ghost use Rattle.cxl_enc.specs.Limits.{address_limit};
ghost use Rattle.cxl_topo.specs.Tree.{forwards_at};
ghost use Rattle.cxl_topo.specs.Faults.{IsTree};
ghost use Rattle.cxl_span.specs.Breaches.{BlockKeeps};
ghost use Rattle.cxl_image.specs.Images.{HasCapsOf};
ghost use Rattle.cxl_regs.specs.Reading.{holds_address};
ghost use Rattle.cxl_model.specs.System.{system_of};
ghost use Rattle.cxl_walk.specs.inner.Calls.{Makes, MissesAt, byte_at, move_of};

use crate::decoding::holder;
use cxl_image::Image;
use cxl_model::{Miss, Step};
use cxl_regs::Block;
use cxl_span::{block_breach, endpoint_place_of, ranges_rise, spans_lie_in_partitions, start_of};
use cxl_topo::{Capacity, Topo, capacity_at};

/// A byte of an endpoint's device, with the decoder that leads to it and that decoder's first host address.
#[derive(Clone, Copy)]
pub(crate) struct ReachedByte {
    pub(crate) endpoint: u32,
    pub(crate) decoder: u8,
    pub(crate) base: u64,
    pub(crate) dpa: u64,
}

/// Where one node sends an address.
#[derive(Clone, Copy)]
pub(crate) enum Next {
    /// The node forwards to its only child.
    Forwards(u32),
    /// A port's decoder sends it to a child.
    Steps(Step, u32),
    /// An endpoint's decoder sends it to a byte.
    Arrives(ReachedByte),
}

/// What a node does with an address.
pub(crate) fn move_at(image: &Image, topo: &Topo, node: u32, h: u64) -> Result<Next, Miss>
    requires tree { IsTree topo.now.nodes }
    requires caps { HasCapsOf image.now topo.now.nodes }
    requires here { node < length topo.now.nodes }
    ensures next { IfOk result (λ next. Makes image.now topo.now h node (move_of next)) }
    ensures miss { IfErr result (λ miss. MissesAt image.now topo.now h node miss) }
{
    if !topo.node(node).forwards {
        return decode(image, topo, node, h);
    }
    match topo.least_child(node) {
        Some(child) => Ok(Next::Forwards(child)),
        None => Err(Miss::NoChild(node)),
    }
}

/// What a node that does not forward does with an address.
fn decode(image: &Image, topo: &Topo, node: u32, h: u64) -> Result<Next, Miss>
    requires tree { IsTree topo.now.nodes }
    requires caps { HasCapsOf image.now topo.now.nodes }
    requires here { node < length topo.now.nodes }
    requires own { forwards_at topo.now.nodes node ≡ false }
    ensures next { IfOk result (λ next. Makes image.now topo.now h node (move_of next)) }
    ensures miss { IfErr result (λ miss. MissesAt image.now topo.now h node miss) }
{
    let block = image.block(node);
    let capacity = capacity_at(topo, node);
    if block_breach(block, capacity.ram, capacity.pmem).is_some() {
        return Err(Miss::BadBlock(node));
    }
    let Some(i) = holder(block, h) else {
        return Err(Miss::NoDecoder(node));
    };
    if block.endpoint() {
        return Ok(Next::Arrives(arrive(block, &capacity, node, i, h)));
    }
    let d = block.decoder(i);
    let entry = d.entry_of(h);
    let step = Step {
        node,
        decoder: i,
        entry,
    };
    match topo.child(node, d.entry_at(entry)) {
        Some(child) => Ok(Next::Steps(step, child)),
        None => Err(Miss::NoChild(node)),
    }
}

/// The byte to which the decoder of an endpoint that holds the address sends it.
fn arrive(block: &Block, capacity: &Capacity, node: u32, i: u8, h: u64) -> ReachedByte
    requires small { capacity.now.ram + capacity.now.pmem ≤ address_limit }
    requires keeps { BlockKeeps block.now capacity.now.ram capacity.now.pmem }
    requires endpoint { block.now.endpoint ≡ true }
    requires holds { IsSomeAnd (slice_get block.now.decoders i) (λ d. holds_address d h ≡ true) }
    ensures { IsSomeAnd (slice_get block.now.decoders i) (λ d. result ≡ byte_at block.now h node i d) }
{
    ranges_rise();
    spans_lie_in_partitions();
    let d = block.decoder(i);
    let start = start_of(block, i);
    ReachedByte {
        endpoint: node,
        decoder: i,
        base: d.base,
        dpa: endpoint_place_of(start, &d, h),
    }
}
