//! What is looked up of any image: the decoder of a range in a node, the window of a range, its first endpoint, where spans
//! start and of which kind they are, and the ports above a node.

ghost use Rattle.std.specs.Prelude.{◌≡◌, ◌+◌, ◌*◌, ◌^◌, ◌<◌, ◌≤◌, ◌&&◌, find, length, slice_get, Some};
ghost use Rattle.std.specs.Option.{option_copied};
ghost use Rattle.cxl_topo.specs.Tree.{is_endpoint_at};
ghost use Rattle.cxl_span.specs.Spans.{span_step, span_start_of};
ghost use Rattle.cxl_model.specs.Hosts.{as_system};
ghost use Rattle.cxl_model.specs.System.{blocks_alone, decoder_at};
ghost use Rattle.cxl_model.specs.Ranges.{serves, index_for, decoder_for, lies_within, window_for, ways_above, bits_above, span_kind, first_endpoint};

use cxl_enc::MemKind;
use cxl_image::Image;
use cxl_model::{Above, Host};
use cxl_regs::{Block, Decoder, Range};
use cxl_topo::{capacity_at, tree_laws};
use cxl_window::Window;

/// The number of the first committed decoder of a node that has the range. A node without a block has none.
pub(crate) fn index_for(image: &Image, range: &Range, node: u32) -> Option<u8>
    ensures { result ≡ index_for (blocks_alone image.now) range.now node }
{
    if node >= image.count() {
        return None;
    }
    let block = image.block(node);
    for i in 0..block.count() {
        if block.decoder(i).has_range(range) {
            return Some(i);
        }
    }
    None
}

/// That decoder itself.
pub(crate) fn decoder_for(image: &Image, range: &Range, node: u32) -> Option<Decoder>
    ensures { result ≡ decoder_for (blocks_alone image.now) range.now node }
{
    match index_for(image, range, node) {
        Some(i) => Some(image.block(node).decoder(i)),
        None => None,
    }
}

/// Whether a node has a committed decoder of the range.
pub(crate) fn serves(image: &Image, range: &Range, node: u32) -> bool
    ensures { result ≡ serves (blocks_alone image.now) range.now node }
{
    index_for(image, range, node).is_some()
}

/// The usable window in which a range lies.
pub(crate) fn window_for<'a>(windows: &'a [Window], range: &Range) -> Option<&'a Window>
    ensures { option_copied result ≡ find (lies_within range.now) windows.now }
{
    windows.get(place_for(windows, range))
}

/// Its place among the windows, or how many there are where there is none.
fn place_for(windows: &[Window], range: &Range) -> usize
    ensures { slice_get windows.now result ≡ find (lies_within range.now) windows.now }
{
    for i in 0..windows.len() {
        if lies_within(range, &windows[i]) {
            return i;
        }
    }
    windows.len()
}

/// Whether a window can be used, and a range lies in it.
fn lies_within(range: &Range, w: &Window) -> bool
    ensures { result ≡ lies_within range.now w.now }
{
    let end = u128::from(range.base) + u128::from(range.size);
    w.is_usable() && w.base() <= range.base && end <= u128::from(w.base()) + u128::from(w.size())
}

/// The endpoint of a range with the least number.
pub(crate) fn first_endpoint(host: &Host, range: &Range) -> Option<u32>
    ensures { result ≡ first_endpoint (as_system host.now) range.now }
{
    for node in 0..host.topo.count() {
        if is_served(host, range, node) {
            return Some(node);
        }
    }
    None
}

/// Whether a node is an endpoint of the range.
fn is_served(host: &Host, range: &Range, node: u32) -> bool
    requires { node < length host.now.topo.now.nodes }
    ensures { result ≡ (is_endpoint_at host.now.topo.now.nodes node && serves (as_system host.now) range.now node) }
{
    host.topo.is_endpoint(node) && serves(host.image, range, node)
}

/// The decoders of a range in the ports above a node, together.
pub(crate) fn ports_above(host: &Host, range: &Range, node: u32) -> Above
    requires { node < length host.now.topo.now.nodes }
    ensures ways { result.ways ≡ ways_above (as_system host.now) range.now node }
    ensures bits { result.bits ≡ bits_above (as_system host.now) range.now node }
    ensures few_ways { result.ways ≤ 2 ^ 20 }
    ensures few_bits { result.bits ≤ 20 }
{
    tree_laws();
    let _count = host.topo.count();
    let mut ways = 1;
    let mut bits = 0;
    let mut below = node;
    while let Some(parent) = host.topo.node(below).parent {
        if let Some(d) = decoder_for(host.image, range, parent.node) {
            ways *= u32::from(d.interleave_ways());
            bits += u32::from(d.select_bits());
        }
        below = parent.node;
    }
    Above { ways, bits }
}

/// The device address at which the span of a decoder starts, as a whole number.
pub(crate) fn span_start(block: &Block, i: u8) -> u128
    requires { i < length block.now.decoders }
    ensures start { result ≡ span_start_of block.now.decoders i }
    ensures small { result < 2 ^ 100 }
{
    let mut taken = 0;
    for j in 0..i {
        let d = block.decoder(j);
        taken += bytes_taken(&d);
    }
    taken + u128::from(block.decoder(i).tail)
}

/// What a decoder skips, and then takes.
fn bytes_taken(d: &Decoder) -> u128
    ensures value { result ≡ span_step d.now }
    ensures small { result ≤ 2 ^ 65 }
{
    u128::from(d.tail) + u128::from(d.span_length())
}

/// Of which kind of memory the span of a decoder is; where it lies in neither partition, it counts as pmem.
pub(crate) fn span_kind(host: &Host, node: u32, i: u8, d: &Decoder) -> MemKind
    requires here { node < length host.now.topo.now.nodes }
    requires there { decoder_at (as_system host.now) node i ≡ Some d.now }
    ensures { result ≡ span_kind (as_system host.now) node i }
{
    let _blocks = host.image.count();
    let start = span_start(host.image.block(node), i);
    let ram = capacity_at(host.topo, node).ram;
    if start + u128::from(d.span_length()) <= u128::from(ram) {
        MemKind::Ram
    } else {
        MemKind::Pmem
    }
}
