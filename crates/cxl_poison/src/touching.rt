//! What a poison record touches of the live regions.

ghost use Rattle.std.specs.Prelude.{◌≡◌, ℕ, ◌+◌, ◌-◌, ◌<◌, ◌≤◌, length, All, IfOk};
ghost use Rattle.cxl_model.specs.Poison.{region_of};
ghost use Rattle.cxl_poison.specs.Live.{AreLive, IsLiveSpan};
ghost use Rattle.cxl_poison.specs.Pieces.{touched_from, touched_end, stretch_size, ArePoisonedPieces, AreTouchedPlaces};
ghost use Rattle.cxl_poison.specs.inner.Cuts.{IsSpanIn, IsTouched, AddsTouched};
ghost use Rattle.cxl_poison.specs.inner.Spans.{AreTouchedSpans};

use crate::apart::live_spans_are_apart;
use crate::cutting::{Touched, put_span};
use crate::live::{LiveSpan, live_spans, spans_at};
use cxl_enc::chunk_size;
use cxl_model::{
    Entry, FixedList, Found, Memory, Part, Poisoned, regions_lie_in_windows,
    weaves_fill_their_regions,
};
use cxl_window::Window;
use std::alloc::Global;

/// What a poison record of the endpoint's device touches of the live regions: for each live span of the device, in
/// the order of its bytes, one run of host bytes at one way, and at more ways a run for each chunk; in place of
/// more than 64 runs of a span one wide piece. The bytes that lie in no live span are counted. The live regions
/// are those of one image, each at the most once, and the windows are that image's. Takes memory. (CXL media error
/// record; how the bytes are told is this project's rule.)
pub fn pieces(
    alloc: Global,
    entry: &Entry,
    endpoint: u32,
    live: &[Found],
    windows: &[Window],
) -> Result<Poisoned, Memory>
    requires { AreLive windows.now live.now }
    ensures pieces { IfOk result (λ poisoned. ArePoisonedPieces entry.now endpoint live.now windows.now poisoned) }
    ensures regions { IfOk result (λ poisoned. All (λ part. region_of part < length live.now) poisoned.parts) }
{
    let spans = live_spans(alloc, endpoint, live)?;
    pieces_in(alloc, entry, endpoint, live, windows, &spans)
}

/// The same where it is known which live regions the record can touch: those at these places of the live ones. No other
/// is looked at. Takes memory.
pub fn pieces_at(
    alloc: Global,
    entry: &Entry,
    endpoint: u32,
    live: &[Found],
    places: &[u32],
    windows: &[Window],
) -> Result<Poisoned, Memory>
    requires live { AreLive windows.now live.now }
    requires places { AreTouchedPlaces entry.now endpoint live.now places.now }
    ensures pieces { IfOk result (λ poisoned. ArePoisonedPieces entry.now endpoint live.now windows.now poisoned) }
    ensures regions { IfOk result (λ poisoned. All (λ part. region_of part < length live.now) poisoned.parts) }
{
    let spans = spans_at(alloc, endpoint, live, places)?;
    pieces_in(alloc, entry, endpoint, live, windows, &spans)
}

/// What the record touches of the device's live spans, of which these are all that it touches, and maybe others.
fn pieces_in(
    alloc: Global,
    entry: &Entry,
    endpoint: u32,
    live: &[Found],
    windows: &[Window],
    spans: &[LiveSpan],
) -> Result<Poisoned, Memory>
    requires live { AreLive windows.now live.now }
    requires spans { AreTouchedSpans entry.now endpoint live.now spans.now }
    ensures pieces { IfOk result (λ poisoned. ArePoisonedPieces entry.now endpoint live.now windows.now poisoned) }
    ensures regions { IfOk result (λ poisoned. All (λ part. region_of part < length live.now) poisoned.parts) }
{
    live_spans_are_apart();
    regions_lie_in_windows();
    let mut parts = Vec::new(alloc);
    let mut unmapped = 64 * u64::from(entry.units);
    for span in spans {
        unmapped -= put_touched(entry, endpoint, live, windows, span, &mut parts)?;
    }
    Ok(Poisoned {
        parts: FixedList::new(parts),
        unmapped,
    })
}

/// Appends what the record touches of one live span, and tells how many bytes that is.
fn put_touched(
    entry: &Entry,
    endpoint: u32,
    live: &[Found],
    windows: &[Window],
    span: &LiveSpan,
    parts: &mut Vec<Part>,
) -> Result<u64, Memory>
    requires live { AreLive windows.now live.now }
    requires span { IsLiveSpan live.now endpoint span.now }
    ensures count { IfOk result (λ n. n ≡ touched_end entry.now span.now - touched_from entry.now span.now) }
    ensures added { IfOk result (λ _. AddsTouched entry.now endpoint live.now windows.now span.now parts.old.items parts.new.items) }
{
    regions_lie_in_windows();
    let found = &live[span.region as usize];
    let window = &windows[found.window as usize];
    let touched = touched(entry, found, window, span);
    put_span(found, window, span, &touched, parts)?;
    Ok(touched.end.saturating_sub(touched.from))
}

/// Which bytes of a span the record touches.
fn touched(entry: &Entry, found: &Found, window: &Window, span: &LiveSpan) -> Touched
    requires { IsSpanIn found.now window.now span.now }
    ensures is { IsTouched span.now result }
    ensures from { result.from ≡ touched_from entry.now span.now }
    ensures end { result.end ≡ touched_end entry.now span.now }
    ensures size { result.size ≡ stretch_size found.now span.now }
{
    weaves_fill_their_regions();
    regions_lie_in_windows();
    Touched {
        from: entry.dpa.saturating_sub(span.start),
        end: touched_end(entry, span),
        size: stretch_size(found, span),
    }
}

/// The offset at which the touched bytes end.
fn touched_end(entry: &Entry, span: &LiveSpan) -> u64
    ensures { result ≡ touched_end entry.now span.now }
{
    let end = u128::from(entry.dpa) + 64 * u128::from(entry.units);
    let reach = end.saturating_sub(u128::from(span.start));
    reach.min(u128::from(span.len)) as u64
}

/// How many bytes of the span lie one after the other among the host's.
fn stretch_size(found: &Found, span: &LiveSpan) -> u64
    requires { found.now.gran < 16 }
    ensures { result ≡ stretch_size found.now span.now }
{
    if found.ways == 1 {
        span.len
    } else {
        u64::from(chunk_size(found.gran))
    }
}
