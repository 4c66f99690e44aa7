//! The bytes of one span that a record touches, cut into runs.

ghost use Rattle.std.specs.Prelude.{◌≡◌, ℕ, ◌+◌, ◌-◌, ◌/◌, ◌<◌, ◌≤◌, OnOk};
ghost use Rattle.cxl_model.specs.Regions.{Carries};
ghost use Rattle.cxl_poison.specs.Live.{IsSpanOf};
ghost use Rattle.cxl_poison.specs.Pieces.{touched_from, touched_end, stretch_size, IsRunOf, IsWideOf, run_limit};
ghost use Rattle.cxl_poison.specs.inner.Cuts.{IsSpanIn, IsTouched, HasTouched, first_stretch, last_stretch, touched_cuts, stretch_cut, first_cuts, AddsRuns, AddsParts};

use crate::live::LiveSpan;
use cxl_deal::{gather, region_fills_slots};
use cxl_model::{
    Found, Memory, Part, Run, Wide, regions_lie_in_windows, weave_of, weaves_fill_their_regions,
};
use cxl_window::Window;

/// The most runs of a span that are told one by one.
const RUN_LIMIT: u64 = 64;

/// The bytes of a span from one offset on up to below another, and the size of the stretches at whose ends they are
/// cut.
#[derive(Clone, Copy)]
pub(crate) struct Touched {
    pub(crate) from: u64,
    pub(crate) end: u64,
    pub(crate) size: u64,
}

/// Appends the parts of one span: its runs, or where they are many the wide piece in their place.
pub(crate) fn put_span(
    found: &Found,
    window: &Window,
    span: &LiveSpan,
    touched: &Touched,
    parts: &mut Vec<Part>,
) -> Result<(), Memory>
    requires span { IsSpanIn found.now window.now span.now }
    requires touched { IsTouched span.now touched.now }
    ensures { OnOk result ((endpoint : ℕ) → IsSpanOf found.now endpoint span.now
        → AddsParts found.now window.now endpoint span.now (touched_cuts touched.now span.now) parts.old.items parts.new.items) }
{
    if touched.from >= touched.end {
        return Ok(());
    }
    if last_stretch(touched) - first_stretch(touched) < RUN_LIMIT {
        put_runs(found, window, span, touched, parts)
    } else {
        parts.push(Part::Wide(wide_of(found, window, span, touched)))?;
        Ok(())
    }
}

/// Appends the runs of one span.
fn put_runs(
    found: &Found,
    window: &Window,
    span: &LiveSpan,
    touched: &Touched,
    parts: &mut Vec<Part>,
) -> Result<(), Memory>
    requires span { IsSpanIn found.now window.now span.now }
    requires touched { HasTouched span.now touched.now }
    ensures { OnOk result ((endpoint : ℕ) → IsSpanOf found.now endpoint span.now
        → AddsRuns found.now window.now endpoint span.now
        (first_cuts touched.now (last_stretch touched.now + 1 - first_stretch touched.now)) parts.old.items parts.new.items) }
{
    for n in first_stretch(touched)..last_stretch(touched) + 1 {
        parts.push(Part::Run(run_of(found, window, span, touched, n)))?;
    }
    Ok(())
}

/// The first stretch with touched bytes.
fn first_stretch(touched: &Touched) -> u64
    requires { 0 < touched.now.size }
    ensures { result ≡ first_stretch touched.now }
{
    touched.from / touched.size
}

/// The last one.
fn last_stretch(touched: &Touched) -> u64
    requires some { 0 < touched.now.size }
    requires any { touched.now.from < touched.now.end }
    ensures value { result ≡ last_stretch touched.now }
    ensures from { first_stretch touched.now ≤ result }
{
    (touched.end - 1) / touched.size
}

/// The run of stretch `n`, which is one from the first to the last with touched bytes.
fn run_of(found: &Found, window: &Window, span: &LiveSpan, touched: &Touched, n: u64) -> Run
    requires span { IsSpanIn found.now window.now span.now }
    requires touched { HasTouched span.now touched.now }
    requires from { first_stretch touched.now ≤ n }
    requires to { n ≤ last_stretch touched.now }
    ensures { (endpoint : ℕ) → IsSpanOf found.now endpoint span.now
        → IsRunOf found.now window.now endpoint span.now (stretch_cut touched.now n) result }
{
    let start = n * touched.size;
    let from = touched.from.max(start);
    let end = touched.end.min(start + touched.size);
    Run {
        h: host_at(found, window, span, from),
        len: end - from,
        region: span.region,
    }
}

/// The wide piece in place of more runs than are told.
fn wide_of(found: &Found, window: &Window, span: &LiveSpan, touched: &Touched) -> Wide
    requires span { IsSpanIn found.now window.now span.now }
    requires touched { HasTouched span.now touched.now }
    requires many { first_stretch touched.now < last_stretch touched.now }
    ensures { (endpoint : ℕ) → IsSpanOf found.now endpoint span.now
        → IsWideOf found.now window.now endpoint span.now (touched_cuts touched.now span.now) result }
{
    let last = last_stretch(touched);
    Wide {
        first: host_at(found, window, span, touched.from),
        last: host_at(found, window, span, last * touched.size),
        count: last - first_stretch(touched) + 1,
        region: span.region,
    }
}

/// The host byte that the region carries to the byte of the span at an offset.
fn host_at(found: &Found, window: &Window, span: &LiveSpan, offset: u64) -> u64
    requires span { IsSpanIn found.now window.now span.now }
    requires within { offset < span.now.len }
    ensures { (endpoint : ℕ) → IsSpanOf found.now endpoint span.now
        → Carries found.now window.now result endpoint (span.now.start + offset) }
{
    regions_lie_in_windows();
    weaves_fill_their_regions();
    region_fills_slots();
    gather(&weave_of(found, window), span.slot, offset)
}
