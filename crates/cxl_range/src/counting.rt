//! How many bytes of a range are dealt to each slot.

ghost use Rattle.std.specs.Prelude.{◌≡◌, ℕ, ◌+◌, ◌<◌, ◌≤◌, slice_index};
ghost use Rattle.cxl_enc.specs.Limits.{address_limit};
ghost use Rattle.cxl_deal.specs.Weaves.{turns_end};
ghost use Rattle.cxl_model.specs.System.{System, IsSystem};
ghost use Rattle.cxl_model.specs.Regions.{IsRegionIn};
ghost use Rattle.cxl_range.specs.Extents.{spread_of};
ghost use Rattle.cxl_range.specs.inner.Woven.{AreCountsBefore};

use crate::woven::{chunk_bytes, region_weave};
use cxl_deal::{Weave, chunks_deal_whole, deal, place_tells_address, region_fills_slots};
use cxl_model::Found;
use cxl_window::Window;

/// The most slots.
const SLOTS: usize = 16;

/// How many of the `len` host bytes from `h` on are dealt to each slot; the entries from the ways on are 0.
/// `window` is the region's window, and the range lies in the region. Takes no memory, and as long for a long
/// range as for a short one. (CXL interleave arithmetic.)
pub fn spread(found: &Found, window: &Window, h: u64, len: u64) -> [u64; 16]
    requires region { (s : System) × IsSystem s × IsRegionIn s window.now found.now }
    requires some { 0 < len }
    requires from { found.now.base ≤ h }
    requires ends { h + len ≤ found.now.base + found.now.size }
    ensures exact { result ≡ spread_of found.now window.now h len }
    ensures past { (slot : ℕ) → found.now.ways ≤ slot → slot < 16 → slice_index result slot ≡ 0 }
{
    region_fills_slots();
    let weave = region_weave(found, window);
    let before = counts_before(&weave, h);
    let mut counts = counts_before(&weave, h + len);
    for slot in 0..SLOTS {
        counts[slot] -= before[slot];
    }
    counts
}

/// How many bytes from the base up to `end` are dealt to each slot.
fn counts_before(weave: &Weave, end: u64) -> [u64; 16]
    requires from { weave.now.base ≤ end }
    requires low { end ≤ address_limit }
    ensures { AreCountsBefore weave.now end result }
{
    region_fills_slots();
    let base = weave.base();
    let turn = u64::from(weave.ways()) * chunk_bytes(weave);
    let turns = (end - base) / turn;
    with_chunks(weave, base + turns * turn, end, whole_turns(weave, turns))
}

/// The counts of so many whole turns, each of which deals one chunk to each slot.
fn whole_turns(weave: &Weave, turns: u64) -> [u64; 16]
    requires { turns_end weave.now turns ≤ address_limit }
    ensures { AreCountsBefore weave.now (turns_end weave.now turns) result }
{
    chunks_deal_whole();
    place_tells_address();
    region_fills_slots();
    let each = turns * chunk_bytes(weave);
    let mut counts = [0; SLOTS];
    for slot in 0..weave.ways() {
        counts[slot as usize] = each;
    }
    counts
}

/// The counts up to `from` carried on to `end`, chunk by chunk.
fn with_chunks(weave: &Weave, from: u64, end: u64, mut counts: [u64; 16]) -> [u64; 16]
    requires base { weave.now.base ≤ from }
    requires up { from ≤ end }
    requires low { end ≤ address_limit }
    requires before { AreCountsBefore weave.now from counts }
    ensures { AreCountsBefore weave.now end result }
{
    chunks_deal_whole();
    let size = chunk_bytes(weave);
    let mut at = from;
    while at < end {
        let left = size - (at - weave.base()) % size;
        let len = left.min(end - at);
        counts[deal(weave, at).slot as usize] += len;
        at += len;
    }
    counts
}
