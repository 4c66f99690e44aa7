//! The own decoders of all regions of an image, gathered in one pass over its decoders.

ghost use Rattle.std.specs.Prelude.{◌≡◌, ℕ, ◌+◌, ◌<◌, ◌≤◌, [], true, List, Some, Vec, length, AllPairs, slice_get, IfOk, IfSome, IfNone, IsTrue, OnOk};
ghost use Rattle.std.specs.Global.{Global};
ghost use Rattle.cxl_window.specs.Fields.{WindowFields};
ghost use Rattle.cxl_model.specs.declared.found.Found.{Found};
ghost use Rattle.cxl_model.specs.System.{system_of, blocks_alone, decoder_at};
ghost use Rattle.cxl_model.specs.Accepted.{KeepsBlocks};
ghost use Rattle.cxl_model.specs.Regions.{region_range};
ghost use Rattle.cxl_regs.specs.Reading.{range_of};
ghost use Rattle.cxl_walk.specs.declared.own.Own.{Own};
ghost use Rattle.cxl_walk.specs.Keeping.{AreOwnOfEach};
ghost use Rattle.cxl_walk.specs.inner.Gathering.{AreGathered, HoldsOnce};

use crate::own::Own;
use cxl_image::Image;
use cxl_model::{Found, Memory};
use cxl_regs::{Decoder, Range};
use cxl_span::one_holder;
use cxl_topo::Topo;
use std::alloc::Global;

/// The own decoders of each of these regions of an image, which rise by base; those of each in rising node order. Each decoder
/// of the image is looked at once. Takes memory.
pub fn own_of_each(
    alloc: Global,
    image: &Image,
    topo: &Topo,
    founds: &[Found],
) -> Result<Vec<Vec<Own>>, Memory>
    requires blocks { (windows : List WindowFields) × KeepsBlocks (system_of image.now topo.now windows) }
    requires rising { AllPairs (λ a b. a.base < b.base) founds.now }
    ensures { IfOk result (λ owns. AreOwnOfEach (system_of image.now topo.now []) founds.now owns.items) }
{
    one_holder();
    let mut owns = none_gathered(alloc, founds)?;
    for node in 0..topo.count() {
        gather_node(&mut owns, image, founds, node)?;
    }
    Ok(owns)
}

/// A list for each region, with nothing gathered. Takes memory, for as many decoders in ports as in endpoints.
fn none_gathered(alloc: Global, founds: &[Found]) -> Result<Vec<Vec<Own>>, Memory>
    ensures long { IfOk result (λ owns. length owns.items ≡ length founds.now) }
    ensures empty { IfOk result (λ owns. (k : ℕ) (own : Vec Own Global) → slice_get owns.items k ≡ Some own → own.items ≡ []) }
{
    let mut owns = Vec::with_capacity(alloc, founds.len())?;
    for found in founds {
        let own = Vec::with_capacity(alloc, 2 * usize::from(found.ways))?;
        owns.push(own)?;
    }
    Ok(owns)
}

/// Gathers the decoders of a node, each in the list of its region. Takes memory.
fn gather_node(
    owns: &mut Vec<Vec<Own>>,
    image: &Image,
    founds: &[Found],
    node: u32,
) -> Result<(), Memory>
    requires once { HoldsOnce (blocks_alone image.now) node }
    requires rising { AllPairs (λ a b. a.base < b.base) founds.now }
    requires before { AreGathered (blocks_alone image.now) founds.now node 0 owns.old.items }
    ensures { OnOk result (AreGathered (blocks_alone image.now) founds.now (node + 1) 0 owns.new.items) }
{
    if node >= image.count() {
        return Ok(());
    }
    let block = image.block(node);
    let mut likely = 0;
    for index in 0..block.count() {
        likely = gather_decoder(
            owns,
            image,
            founds,
            likely,
            node,
            index,
            &block.decoder(index),
        )?;
    }
    Ok(())
}

/// Gathers one decoder, where a region has its range; the region that is likely for the next one comes back. Takes memory.
fn gather_decoder(
    owns: &mut Vec<Vec<Own>>,
    image: &Image,
    founds: &[Found],
    likely: usize,
    node: u32,
    index: u8,
    d: &Decoder,
) -> Result<usize, Memory>
    requires there { decoder_at (blocks_alone image.now) node index ≡ Some d.now }
    requires once { HoldsOnce (blocks_alone image.now) node }
    requires rising { AllPairs (λ a b. a.base < b.base) founds.now }
    requires before { AreGathered (blocks_alone image.now) founds.now node index owns.old.items }
    ensures { OnOk result (AreGathered (blocks_alone image.now) founds.now node (index + 1) owns.new.items) }
{
    if !d.committed {
        return Ok(likely);
    }
    let Some(place) = region_with(founds, &d.range(), likely) else {
        return Ok(likely);
    };
    let own = Own {
        node,
        index,
        ways: d.interleave_ways(),
    };
    owns[place].push(own)?;
    Ok(place.saturating_add(1))
}

/// The place of the region with a range among regions that rise by base. The one that is likely, mostly the next behind that of
/// the decoder before, is tried before a search.
fn region_with(founds: &[Found], range: &Range, likely: usize) -> Option<usize>
    requires { AllPairs (λ a b. a.base < b.base) founds.now }
    ensures some { IfSome result (λ k. (found : Found) × (slice_get founds.now k ≡ Some found) × (region_range found ≡ range.now)) }
    ensures none { IfNone result ((k : ℕ) (found : Found) → slice_get founds.now k ≡ Some found
        → region_range found ≡ range.now → ⊥) }
{
    if has_range(founds, likely, range) {
        return Some(likely);
    }
    let behind = founds.partition_point(|found| found.base <= range.base);
    if behind > 0 && has_range(founds, behind - 1, range) {
        return Some(behind - 1);
    }
    None
}

/// Whether a region stands at a place, and has the range.
fn has_range(founds: &[Found], place: usize, range: &Range) -> bool
    ensures yes { IsTrue result → (found : Found) × (slice_get founds.now place ≡ Some found) × (region_range found ≡ range.now) }
    ensures only { (found : Found) → slice_get founds.now place ≡ Some found → region_range found ≡ range.now → IsTrue result }
{
    place < founds.len() && founds[place].base == range.base && founds[place].size == range.size
}
