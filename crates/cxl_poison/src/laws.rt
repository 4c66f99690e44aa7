//! Laws of poison lists, each the contract of a function that does nothing.

ghost use Rattle.std.specs.Prelude.{◌≡◌, ℕ, ◌+◌, ◌-◌, ◌*◌, ◌/◌, ◌<◌, ◌≤◌, List, Contains, ◌⊎◌};
ghost use Rattle.std.specs.List.{filter_map, range_with_len};
ghost use Rattle.cxl_window.specs.Fields.{WindowFields};
ghost use Rattle.cxl_model.specs.declared.found.Found.{Found};
ghost use Rattle.cxl_model.specs.declared.poison.Entry.{Entry};
ghost use Rattle.cxl_model.specs.declared.poison.Poisoned.{Poisoned};
ghost use Rattle.cxl_model.specs.declared.poison.PoisonList.{PoisonList};
ghost use Rattle.cxl_poison.specs.declared.fault.PoisonFault.{PoisonFault};
ghost use Rattle.cxl_poison.specs.Payload.{IsPoisonPayload, IsPoisonFault, HasList, HasPoisonFault};
ghost use Rattle.cxl_model.specs.declared.poison.Run.{Run};
ghost use Rattle.cxl_model.specs.System.{System, IsSystem};
ghost use Rattle.cxl_model.specs.Regions.{IsRegionIn, Carries};
ghost use Rattle.cxl_poison.specs.declared.live.LiveSpan.{LiveSpan};
ghost use Rattle.cxl_poison.specs.Live.{AreLive, IsSpanOf};
ghost use Rattle.cxl_poison.specs.Pieces.{touched_from, touched_end, Cut, cut_at, cuts_between, cuts_of, IsRunOf, ArePoisonedPieces};

use crate::apart::live_spans_are_apart;
use cxl_deal::{chunks_deal_whole, region_fills_slots};
use cxl_model::{
    bytes_are_carried_one_to_one, regions_lie_in_windows, slots_are_endpoints,
    weaves_fill_their_regions,
};

/// A law of poison lists: bytes are one list at the most, or have one fault: one of the two, and never both.
pub fn bytes_are_one_list()
    ensures one_list { (bytes : List ℕ) (list other : PoisonList)
        → IsPoisonPayload bytes list → IsPoisonPayload bytes other → list ≡ other }
    ensures one_fault { (bytes : List ℕ) (fault other : PoisonFault)
        → IsPoisonFault bytes fault → IsPoisonFault bytes other → fault ≡ other }
    ensures not_both { (bytes : List ℕ) (list : PoisonList) (fault : PoisonFault)
        → IsPoisonPayload bytes list → IsPoisonFault bytes fault → ⊥ }
    ensures some { (bytes : List ℕ) → HasList bytes ⊎ HasPoisonFault bytes }
{}

/// A law of poison records: what one touches of live regions is told in one way.
pub fn records_are_told_in_one_way()
    ensures { (entry : Entry) (endpoint : ℕ) (live : List Found) (windows : List WindowFields) (told other : Poisoned)
        → AreLive windows live → ArePoisonedPieces entry endpoint live windows told
        → ArePoisonedPieces entry endpoint live windows other → told ≡ other }
{
    bytes_are_carried_one_to_one();
    regions_lie_in_windows();
}

/// A law of poison records: what one touches of live regions can be told.
pub fn each_record_has_pieces()
    ensures { (entry : Entry) (endpoint : ℕ) (live : List Found) (windows : List WindowFields) → AreLive windows live
        → (told : Poisoned) × ArePoisonedPieces entry endpoint live windows told }
{
    live_spans_are_apart();
    bytes_are_carried_one_to_one();
    regions_lie_in_windows();
}

/// A law of cuts: of stretches that fill a span, only those from the first to the last with touched bytes have one.
pub fn cuts_lie_in_touched_stretches()
    ensures { (from end size len : ℕ) → 0 < size → len / size * size ≡ len → end ≤ len
        → cuts_between from end size len
        ≡ filter_map (cut_at from end size) (range_with_len (from / size) ((end - 1) / size + 1 - from / size)) }
{}

/// A law of poison records: the cuts of a region's span are the bytes of it that a record touches, and a run has the
/// host bytes that the region carries to those of its cut, one after the other.
pub fn runs_carry_the_touched_bytes()
    ensures within { (entry : Entry) (found : Found) (span : LiveSpan) (cut : Cut) → Contains (cuts_of entry found span) cut
        → (touched_from entry span ≤ cut.from) × (0 < cut.len) × (cut.from + cut.len ≤ touched_end entry span) }
    ensures each { (s : System) (w : WindowFields) (found : Found) (endpoint : ℕ) (span : LiveSpan) (entry : Entry) (offset : ℕ)
        → IsSystem s → IsRegionIn s w found → IsSpanOf found endpoint span
        → touched_from entry span ≤ offset → offset < touched_end entry span
        → (cut : Cut) × Contains (cuts_of entry found span) cut × (cut.from ≤ offset) × (offset < cut.from + cut.len) }
    ensures carried { (s : System) (w : WindowFields) (found : Found) (endpoint : ℕ) (span : LiveSpan) (entry : Entry) (cut : Cut) (run : Run) (k : ℕ)
        → IsSystem s → IsRegionIn s w found → IsSpanOf found endpoint span
        → Contains (cuts_of entry found span) cut → IsRunOf found w endpoint span cut run → k < run.len
        → Carries found w (run.h + k) endpoint (span.start + (cut.from + k)) }
{
    regions_lie_in_windows();
    weaves_fill_their_regions();
    slots_are_endpoints();
    region_fills_slots();
    chunks_deal_whole();
}
