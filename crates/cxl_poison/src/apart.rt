//! What a poison list may rest on: no span of live regions shares a device byte with another.

ghost use Rattle.std.specs.Prelude.{◌≡◌, ℕ, ◌+◌, ◌<◌, ◌≤◌, ◌^◌, List, length};
ghost use Rattle.cxl_window.specs.Fields.{WindowFields};
ghost use Rattle.cxl_model.specs.declared.found.Found.{Found};
ghost use Rattle.cxl_poison.specs.declared.live.LiveSpan.{LiveSpan};
ghost use Rattle.cxl_poison.specs.Live.{AreLive, IsLiveSpan};

use cxl_model::{
    regions_lie_in_windows, regions_share_no_byte, slots_are_endpoints, weaves_fill_their_regions,
};

/// A law of live regions, whose function does nothing: they are few, each has one span of a device at the most, a
/// span has some bytes, and none of them lies in two.
pub(crate) fn live_spans_are_apart()
    ensures few { (windows : List WindowFields) (live : List Found) → AreLive windows live → length live ≤ 2 ^ 24 }
    ensures one { (windows : List WindowFields) (live : List Found) (endpoint : ℕ) (a b : LiveSpan)
        → AreLive windows live → IsLiveSpan live endpoint a → IsLiveSpan live endpoint b
        → a.region ≡ b.region → a ≡ b }
    ensures some { (windows : List WindowFields) (live : List Found) (endpoint : ℕ) (a : LiveSpan)
        → AreLive windows live → IsLiveSpan live endpoint a → 0 < a.len }
    ensures bytes { (windows : List WindowFields) (live : List Found) (endpoint dpa : ℕ) (a b : LiveSpan)
        → AreLive windows live → IsLiveSpan live endpoint a → IsLiveSpan live endpoint b
        → a.start ≤ dpa → dpa < a.start + a.len → b.start ≤ dpa → dpa < b.start + b.len
        → a.region ≡ b.region }
{
    regions_share_no_byte();
    regions_lie_in_windows();
    weaves_fill_their_regions();
    slots_are_endpoints();
}
