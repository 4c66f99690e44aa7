//! The live spans of a device.

ghost use Rattle.std.specs.Prelude.{◌≡◌, ◌≢◌, ◌<◌, List, length, All, AllPairs, IfOk, IfSome, IfNone};
ghost use Rattle.cxl_window.specs.Fields.{WindowFields};
ghost use Rattle.cxl_model.specs.System.{System, IsSystem};
ghost use Rattle.cxl_model.specs.Regions.{IsRegion};
ghost use Rattle.cxl_poison.specs.declared.live.LiveSpan.{LiveSpan};
ghost use Rattle.cxl_poison.specs.Live.{AreLive, IsSpanOf, AreLiveSpans};
ghost use Rattle.cxl_poison.specs.inner.Spans.{AreSpansAt};

use crate::apart::live_spans_are_apart;
use cxl_model::{Found, Memory, slot_on};
use std::alloc::Global;

/// The span that a live region has of a device.
#[derive(Clone, Copy)]
pub(crate) struct LiveSpan {
    /// The place of the region among the live ones.
    pub(crate) region: u32,
    pub(crate) slot: u32,
    /// The device address of its first byte.
    pub(crate) start: u64,
    /// In bytes.
    pub(crate) len: u64,
}

/// The live spans of the endpoint's device, in the order of its bytes. Takes memory.
pub(crate) fn live_spans(
    alloc: Global,
    endpoint: u32,
    live: &[Found],
) -> Result<Vec<LiveSpan>, Memory>
    requires { (windows : List WindowFields) × AreLive windows live.now }
    ensures { IfOk result (λ spans. AreLiveSpans live.now endpoint spans.items) }
{
    live_spans_are_apart();
    let mut spans = Vec::new(alloc);
    for (region, found) in live.iter().enumerate() {
        if let Some(span) = span_on(found, region as u32, endpoint) {
            spans.push(span)?;
        }
    }
    spans.sort_by_key(|span| span.start)?;
    Ok(spans)
}

/// The spans that the live regions at these places have of the endpoint's device, in the order of its bytes. Takes memory.
pub(crate) fn spans_at(
    alloc: Global,
    endpoint: u32,
    live: &[Found],
    places: &[u32],
) -> Result<Vec<LiveSpan>, Memory>
    requires live { (windows : List WindowFields) × AreLive windows live.now }
    requires each { All (λ place. place < length live.now) places.now }
    requires once { AllPairs (λ a b. a ≢ b) places.now }
    ensures { IfOk result (λ spans. AreSpansAt live.now endpoint places.now spans.items) }
{
    live_spans_are_apart();
    let mut spans = Vec::new(alloc);
    for place in places {
        if let Some(span) = span_on(&live[*place as usize], *place, endpoint) {
            spans.push(span)?;
        }
    }
    spans.sort_by_key(|span| span.start)?;
    Ok(spans)
}

/// The span that the region has of the endpoint's device, where it has one.
fn span_on(found: &Found, region: u32, endpoint: u32) -> Option<LiveSpan>
    requires { (s : System) × IsSystem s × IsRegion s found.now }
    ensures region { IfSome result (λ span. span.region ≡ region) }
    ensures some { IfSome result (λ span. IsSpanOf found.now endpoint span) }
    ensures none { IfNone result ((other : LiveSpan) → IsSpanOf found.now endpoint other → ⊥) }
{
    let slot = slot_on(found, endpoint)?;
    let ways = found.ways;
    Some(LiveSpan {
        region,
        slot: slot as u32,
        start: found.spans.items()[slot].start,
        len: found.size / u64::from(ways),
    })
}
