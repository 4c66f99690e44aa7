//! The extents of a range of host bytes.

ghost use Rattle.std.specs.Prelude.{◌≡◌, ◌+◌, ◌-◌, ◌<◌, ◌≤◌, All, IfOk, sum_by};
ghost use Rattle.cxl_deal.specs.Weaves.{dealt_chunk};
ghost use Rattle.cxl_window.specs.Fields.{WindowFields};
ghost use Rattle.cxl_model.specs.declared.extent.Extent.{Extent};
ghost use Rattle.cxl_model.specs.System.{System, IsSystem};
ghost use Rattle.cxl_model.specs.Regions.{IsRegionIn, weave_fields};
ghost use Rattle.cxl_range.specs.Extents.{extent_at, chunk_extent, extents_of};
ghost use Rattle.cxl_range.specs.Carried.{IsCarried, Follow};
ghost use Rattle.cxl_range.specs.inner.Woven.{IsWoven};

use crate::laws::extents_carry_their_bytes;
use crate::woven::{chunk_bytes, region_weave};
use cxl_deal::{Weave, deal, region_fills_slots};
use cxl_model::{Extent, Found, Memory};
use cxl_window::Window;
use std::alloc::Global;

/// On which device bytes `len` host bytes from `h` on lie, in rising host order: one extent in a region of one
/// way, and in another one for each chunk with bytes of the range. `window` is the region's window, and the range
/// lies in the region. Takes memory. (CXL interleave arithmetic; what an extent is is this project's rule.)
pub fn extents(
    alloc: Global,
    found: &Found,
    window: &Window,
    h: u64,
    len: u32,
) -> Result<Vec<Extent>, Memory>
    requires region { (s : System) × IsSystem s × IsRegionIn s window.now found.now }
    requires some { 0 < len }
    requires from { found.now.base ≤ h }
    requires ends { h + len ≤ found.now.base + found.now.size }
    ensures exact { IfOk result (λ extents. extents.items ≡ extents_of found.now window.now h len) }
    ensures carried { IfOk result (λ extents. All (IsCarried found.now window.now) extents.items) }
    ensures follow { IfOk result (λ extents. Follow h (h + len) extents.items) }
    ensures lengths { IfOk result (λ extents. sum_by (λ (extent : Extent). extent.len) extents.items ≡ len) }
{
    extents_carry_their_bytes();
    let weave = region_weave(found, window);
    let mut extents = Vec::new(alloc);
    if found.ways == 1 {
        extents.push(extent_at(found, &weave, h, len))?;
        return Ok(extents);
    }
    let size = chunk_bytes(&weave);
    let end = h + u64::from(len);
    let first = (h - found.base) / size;
    let last = (end - 1 - found.base) / size;
    for chunk in first..last + 1 {
        extents.push(chunk_extent(found, &weave, h, end, chunk))?;
    }
    Ok(extents)
}

/// The bytes from `h` up to `end` that a chunk has, one of which it has.
fn chunk_extent(found: &Found, weave: &Weave, h: u64, end: u64, chunk: u64) -> Extent
    requires woven { IsWoven found.now weave.now }
    requires from { found.now.base ≤ h }
    requires some { h < end }
    requires ends { end ≤ found.now.base + found.now.size }
    requires first { dealt_chunk weave.now h ≤ chunk }
    requires last { chunk ≤ dealt_chunk weave.now (end - 1) }
    ensures { (w : WindowFields) → weave.now ≡ weave_fields found.now w
        → result ≡ chunk_extent found.now w h (end - h) chunk }
{
    let size = chunk_bytes(weave);
    let start = found.base + chunk * size;
    let from = h.max(start);
    let to = end.min(start + size);
    extent_at(found, weave, from, (to - from) as u32)
}

/// So many bytes from `h` on, where they lie together on the device.
fn extent_at(found: &Found, weave: &Weave, h: u64, len: u32) -> Extent
    requires woven { IsWoven found.now weave.now }
    requires from { found.now.base ≤ h }
    requires below { h < found.now.base + found.now.size }
    ensures { (w : WindowFields) → weave.now ≡ weave_fields found.now w
        → result ≡ extent_at found.now w h len }
{
    region_fills_slots();
    let dealt = deal(weave, h);
    let place = found.spans.items()[dealt.slot as usize];
    let dpa = place.start + dealt.offset;
    Extent {
        h,
        len,
        slot: dealt.slot,
        dpa,
    }
}
