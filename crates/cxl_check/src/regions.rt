//! The regions of an accepted image.

ghost use Rattle.std.specs.Prelude.{◌≡◌, ℕ, ◌<◌, ◌≤◌, length, All, IfOk};
ghost use Rattle.std.specs.BTreeMap.{keys, IsOrdered, ContainsKey};
ghost use Rattle.cxl_model.specs.Hosts.{as_system};
ghost use Rattle.cxl_model.specs.Accepted.{IsAccepted, IsWhole, IsOrderlySystem};
ghost use Rattle.cxl_model.specs.Ranges.{IsCommittedRange};
ghost use Rattle.cxl_model.specs.Regions.{HasSpan, IsRegion, region_range};
ghost use Rattle.cxl_model.specs.declared.found.Place.{Place};
ghost use Rattle.cxl_model.specs.Listed.{AreRegionsByBase};
ghost use Rattle.cxl_check.specs.inner.Firsts.{key_cmp};
ghost use Rattle.cxl_check.specs.inner.Facts.{AreSystemTables};
ghost use Rattle.cxl_check.specs.inner.Known.{IsKnown, IsKnownAs};
ghost use Rattle.cxl_check.specs.inner.Listing.{IsWholeKey, AreListed, AreSpans};

use crate::decoders::index_for;
use crate::firsts::{RangeKey, first_of};
use crate::known::{Known, known_of, window_of};
use crate::slots::{first_target, place_of_slot};
use crate::tables::Tables;
use crate::ways::region_code;
use cxl_enc::FixedList;
use cxl_model::{
    Found, Host, Place, accepted_where_whole, endpoints_lie_evenly, regions_share_no_byte,
    whole_ranges_have_one_region,
};
use cxl_regs::Range;
use cxl_span::ranges_rise;
use cxl_window::{Window, root_ways};
use std::alloc::{AllocError, Global};
use std::collections::BTreeMap;

/// The regions of an accepted image, by rising base. Takes memory.
pub(crate) fn regions(
    alloc: Global,
    met: &mut Vec<Known>,
    host: &Host,
    tables: &Tables,
) -> Result<Vec<Found>, AllocError>
    requires met { All (IsKnown (as_system host.now)) met.old.items }
    requires ready { IsOrderlySystem (as_system host.now) }
    requires accepted { IsAccepted (as_system host.now) }
    requires tables { AreSystemTables (as_system host.now) tables.now }
    ensures { IfOk result
        (λ regions. AreRegionsByBase (as_system host.now) regions.items) }
{
    accepted_where_whole();
    endpoints_lie_evenly();
    regions_share_no_byte();
    ranges_rise();
    let keys = keys_of(alloc, &tables.firsts)?;
    regions_at(alloc, met, host, tables, &keys)
}

/// The ranges of a table, by rising base. Takes memory.
fn keys_of(alloc: Global, firsts: &BTreeMap<RangeKey, u32>) -> Result<Vec<RangeKey>, AllocError>
    ensures keys { IfOk result (λ found. found.items ≡ keys firsts.now) }
    ensures ordered { IsOrdered key_cmp firsts.now }
    ensures found { All (ContainsKey key_cmp firsts.now) (keys firsts.now) }
{
    firsts.keys().copied().collect(alloc)
}

/// The regions of these ranges, in their order. Takes memory.
fn regions_at(
    alloc: Global,
    met: &mut Vec<Known>,
    host: &Host,
    tables: &Tables,
    keys: &[RangeKey],
) -> Result<Vec<Found>, AllocError>
    requires met { All (IsKnown (as_system host.now)) met.old.items }
    requires ready { IsOrderlySystem (as_system host.now) }
    requires tables { AreSystemTables (as_system host.now) tables.now }
    requires whole { All (IsWholeKey (as_system host.now)) keys.now }
    ensures { IfOk result (λ regions. AreListed (as_system host.now) keys.now regions.items) }
{
    let mut regions = Vec::with_capacity(alloc, keys.len())?;
    for key in keys {
        let range = Range {
            base: key.base,
            size: key.size,
        };
        let known = known_of(met, host, tables, &range);
        let region = region_of(alloc, host, tables, &known, &range)?;
        regions.push(region)?;
    }
    Ok(regions)
}

/// The region of a committed range that is whole. Takes memory.
fn region_of(
    alloc: Global,
    host: &Host,
    tables: &Tables,
    known: &Known,
    range: &Range,
) -> Result<Found, AllocError>
    requires ready { IsOrderlySystem (as_system host.now) }
    requires tables { AreSystemTables (as_system host.now) tables.now }
    requires known { IsKnownAs (as_system host.now) range.now known.now }
    requires committed { IsCommittedRange (as_system host.now) range.now }
    requires whole { IsWhole (as_system host.now) range.now }
    ensures region { IfOk result (λ found. IsRegion (as_system host.now) found) }
    ensures range { IfOk result (λ found. region_range found ≡ range.now) }
{
    whole_ranges_have_one_region();
    let w = window_of(host, range, known).unwrap();
    let facts = known.facts;
    let spans = spans_of(alloc, host, tables, range, w, facts.ways)?;
    Ok(Found {
        base: range.base,
        size: range.size,
        window: w.index(),
        gran: region_code(&facts, w),
        ways: facts.ways,
        kind: facts.kind,
        spans: FixedList::new(spans),
    })
}

/// The spans of so many slots. Takes memory.
fn spans_of(
    alloc: Global,
    host: &Host,
    tables: &Tables,
    range: &Range,
    w: &Window,
    ways: u8,
) -> Result<Vec<Place>, AllocError>
    requires ready { IsOrderlySystem (as_system host.now) }
    requires tables { AreSystemTables (as_system host.now) tables.now }
    requires few { ways ≤ 16 }
    requires some { (slot : ℕ) → slot < ways
        → (place : Place) × HasSpan (as_system host.now) w.now range.now slot place }
    ensures { IfOk result (λ spans. AreSpans (as_system host.now) w.now range.now ways spans.items) }
{
    let likely = likely_index(host, &tables.firsts, range);
    let first = first_target(host.topo, w);
    let root = root_ways(w);
    let mut spans = Vec::with_capacity(alloc, usize::from(ways))?;
    for slot in 0..ways {
        spans.push(place_of_slot(
            host,
            &tables.children,
            &tables.decoders,
            range,
            w,
            root,
            &first,
            slot,
            likely,
        ))?;
    }
    Ok(spans)
}

/// The number that a range is likely to have in all nodes: that in its first endpoint.
fn likely_index(host: &Host, firsts: &BTreeMap<RangeKey, u32>, range: &Range) -> u8
    requires { IsOrderlySystem (as_system host.now) }
{
    match first_of(firsts, range) {
        Some(first) => index_for(host, range, first, 0).unwrap_or(0),
        None => 0,
    }
}
