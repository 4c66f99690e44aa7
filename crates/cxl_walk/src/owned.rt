//! Which decoders are a region's own.

ghost use Rattle.std.specs.Prelude.{◌≡◌, ◌==◌, ℕ, ◌<◌, ◌≤◌, [], length, find, slice_get, Some, IfOk, IfSome};
ghost use Rattle.std.specs.List.{filter_map, range_with_len};
ghost use Rattle.cxl_model.specs.declared.found.Found.{Found};
ghost use Rattle.cxl_model.specs.System.{System, system_of, blocks_alone};
ghost use Rattle.cxl_model.specs.Regions.{region_range};
ghost use Rattle.cxl_walk.specs.Keeping.{own_for, own_decoders};
ghost use Rattle.cxl_walk.specs.inner.Marks.{own_where, IsRegionOver};

use crate::marking::marked_ways;
use crate::own::Own;
use cxl_image::Image;
use cxl_model::{Found, Memory, endpoints_lie_evenly, slots_are_endpoints};
use cxl_regs::Range;
use cxl_topo::{Topo, tree_laws};
use std::alloc::Global;

/// The decoder of a region that stands in a node, by its own ones. Its likely place is tried first, whatever that is.
pub(crate) fn own_at(own: &[Own], likely: &[usize], node: u32) -> Option<Own>
    requires { (s : System) × (found : Found) × (own.now ≡ own_decoders s found) }
    ensures { result ≡ find (λ (one : Own). one.node == node) own.now }
{
    match likely_own(own, likely, node) {
        Some(one) => Some(one),
        None => own.iter().copied().find(|one| one.node == node),
    }
}

/// The decoder at the place that is likely for a node, where it stands in that node.
fn likely_own(own: &[Own], likely: &[usize], node: u32) -> Option<Own>
    ensures { IfSome result (λ one. (place : ℕ) × (slice_get own.now place ≡ Some one) × (one.node ≡ node)) }
{
    let place = *likely.get(node as usize)?;
    let one = *own.get(place)?;
    if one.node == node { Some(one) } else { None }
}

/// Puts the place of each of these decoders as the likely one of its node. Those of other nodes stay.
pub(crate) fn put_likely(likely: &mut Vec<usize>, own: &[Own])
    ensures { length likely.new.items ≡ length likely.old.items }
{
    for (place, one) in own.iter().enumerate() {
        let node = one.node as usize;
        if node < likely.len() {
            likely[node] = place;
        }
    }
}

/// The own decoders of a region of the image, in rising node order. Takes memory.
///
/// None stands beside the ways to the region's endpoints, so the nodes there are not asked.
pub(crate) fn own_in(
    alloc: Global,
    image: &Image,
    topo: &Topo,
    found: &Found,
) -> Result<Vec<Own>, Memory>
    requires { IsRegionOver image.now topo.now found.now }
    ensures { IfOk result (λ own. own.items ≡ own_decoders (system_of image.now topo.now []) found.now) }
{
    tree_laws();
    endpoints_lie_evenly();
    slots_are_endpoints();
    let marks = marked_ways(alloc, topo, found.spans.items())?;
    own_at_marks(alloc, image, topo, found, &marks)
}

/// The decoders of a region's range in the nodes that are marked. Takes memory.
fn own_at_marks(
    alloc: Global,
    image: &Image,
    topo: &Topo,
    found: &Found,
    marks: &[bool],
) -> Result<Vec<Own>, Memory>
    ensures { IfOk result (λ own. own.items ≡ filter_map (own_where marks.now (blocks_alone image.now) (region_range found.now))
        (range_with_len 0 (length topo.now.nodes))) }
{
    let range = Range {
        base: found.base,
        size: found.size,
    };
    let own = (0..topo.count())
        .filter_map(|node| own_where(image, &range, marks, node))
        .collect(alloc)?;
    Ok(own)
}

/// The decoder of a range in a node, where that is marked.
fn own_where(image: &Image, range: &Range, marks: &[bool], node: u32) -> Option<Own>
    ensures { result ≡ own_where marks.now (blocks_alone image.now) range.now node }
{
    let place = node as usize;
    if place < marks.len() && marks[place] {
        own_for(image, range, node)
    } else {
        None
    }
}

/// The decoder of a range in a node.
fn own_for(image: &Image, range: &Range, node: u32) -> Option<Own>
    ensures { result ≡ own_for (blocks_alone image.now) range.now node }
{
    if node >= image.count() {
        return None;
    }
    let block = image.block(node);
    for index in 0..block.count() {
        let decoder = block.decoder(index);
        if decoder.has_range(range) {
            return Some(Own {
                node,
                index,
                ways: decoder.interleave_ways(),
            });
        }
    }
    None
}
