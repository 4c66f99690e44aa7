//! Laws of the regions of an image that keeps K1 to K8, accepted or not, each the contract of a function that
//! does nothing.

ghost use Rattle.std.specs.Prelude.{◌≡◌, ℕ, ◌+◌, ◌-◌, ◌*◌, ◌/◌, ◌%◌, ◌<◌, ◌≤◌, true, false, List, [], length, Contains, slice_get, Some};
ghost use Rattle.cxl_enc.specs.Limits.{address_limit};
ghost use Rattle.cxl_num.specs.Interleave.{chunk_size};
ghost use Rattle.cxl_deal.specs.Weaves.{IsWeave, weave_ways, turns_end};
ghost use Rattle.cxl_regs.specs.declared.decoder.Decoder.{Decoder};
ghost use Rattle.cxl_topo.specs.Tree.{is_endpoint_at};
ghost use Rattle.cxl_span.specs.Partitions.{lies_in};
ghost use Rattle.cxl_span.specs.Spans.{span_start_of};
ghost use Rattle.cxl_window.specs.Fields.{WindowFields};
ghost use Rattle.cxl_model.specs.declared.found.Found.{Found};
ghost use Rattle.cxl_model.specs.declared.found.Place.{Place};
ghost use Rattle.cxl_model.specs.System.{System, IsSystem, decoders_at, decoder_at, ram_at, pmem_at};
ghost use Rattle.cxl_regs.specs.Reading.{has_range};
ghost use Rattle.cxl_regs.specs.declared.reading.Range.{Range};
ghost use Rattle.cxl_model.specs.Ranges.{IsCommittedRange, serves, index_for, window_for, ways_above, range_ways};
ghost use Rattle.cxl_model.specs.Rules.{lands_on};
ghost use Rattle.cxl_model.specs.Accepted.{IsAccepted, KeepsBlocks, IsWhole, breaks};
ghost use Rattle.cxl_model.specs.Regions.{region_range, IsRegionIn, weave_fields, Carries};
ghost use Rattle.cxl_model.specs.Counts.{is_endpoint_of, endpoints_of, endpoints_under};
ghost use Rattle.cxl_model.specs.Bytes.{slot_length, LiesInSpan, LiesInCommittedSpan};
ghost use Rattle.cxl_model.specs.Changes.{HaveSameDecoders};
ghost use Rattle.cxl_model.specs.Listed.{AreRegions, AreRegionsByBase};

use crate::laws::accepted_where_whole;
use cxl_deal::{chunks_deal_whole, place_tells_address, region_fills_slots};
use cxl_span::{one_holder, ranges_rise, spans_are_whole, spans_follow, spans_lie_in_partitions};
use cxl_topo::tree_laws;

/// A law of counts: under a node to which a whole range leads lie as many of its endpoints as its ways divided
/// by the window's and by those of the ports above the node. The node has a committed decoder of the range, or
/// passes it on to such a node; under any other node lies none. In all, the range has as many endpoints as ways.
pub fn endpoints_lie_evenly()
    ensures under { (s : System) (r : Range) (w : WindowFields) (n : ℕ) → IsSystem s → IsWhole s r
        → window_for s r ≡ Some w → lands_on s r n ≡ true
        → length (endpoints_under s r n) * ways_above s r n * w.ways ≡ range_ways s r }
    ensures none { (s : System) (r : Range) (n : ℕ) → IsSystem s → IsWhole s r
        → lands_on s r n ≡ false → endpoints_under s r n ≡ [] }
    ensures served { (s : System) (r : Range) (n : ℕ) → IsSystem s → IsWhole s r
        → serves s r n ≡ true → lands_on s r n ≡ true }
    ensures all { (s : System) (r : Range) → IsSystem s → IsWhole s r → IsCommittedRange s r
        → length (endpoints_of s r) ≡ range_ways s r }
{
    tree_laws();
    ranges_rise();
}

/// A law of regions: each committed range that is whole has one region.
pub fn whole_ranges_have_one_region()
    ensures some { (s : System) (r : Range) → IsSystem s → IsCommittedRange s r → IsWhole s r
        → (w : WindowFields) × (found : Found) × IsRegionIn s w found × (region_range found ≡ r) }
    ensures one { (s : System) (w v : WindowFields) (found other : Found) → IsSystem s
        → IsRegionIn s w found → IsRegionIn s v other → region_range found ≡ region_range other
        → found ≡ other }
{
    tree_laws();
    ranges_rise();
}

/// A law of spans: a region's slots are the endpoints of its range, each once, and the span of each is that of
/// the endpoint's decoder and lies in the partition of the region's kind, below the limit of device addresses.
pub fn slots_are_endpoints()
    ensures apart { (s : System) (w : WindowFields) (found : Found) (a b : ℕ) (p q : Place) → IsSystem s
        → IsRegionIn s w found → slice_get found.spans a ≡ Some p → slice_get found.spans b ≡ Some q
        → p.endpoint ≡ q.endpoint → a ≡ b }
    ensures each { (s : System) (w : WindowFields) (found : Found) (m : ℕ) → IsSystem s
        → IsRegionIn s w found → is_endpoint_of s (region_range found) m ≡ true
        → (slot : ℕ) × (place : Place) × (slice_get found.spans slot ≡ Some place)
        × (place.endpoint ≡ m) }
    ensures endpoint { (s : System) (w : WindowFields) (found : Found) (slot : ℕ) (place : Place)
        → IsSystem s → IsRegionIn s w found → slice_get found.spans slot ≡ Some place
        → is_endpoint_of s (region_range found) place.endpoint ≡ true }
    ensures start { (s : System) (w : WindowFields) (found : Found) (slot : ℕ) (place : Place)
        → IsSystem s → IsRegionIn s w found → slice_get found.spans slot ≡ Some place
        → (i : ℕ) × (index_for s (region_range found) place.endpoint ≡ Some i)
        × (place.start ≡ span_start_of (decoders_at s place.endpoint) i) }
    ensures inside { (s : System) (w : WindowFields) (found : Found) (slot : ℕ) (place : Place)
        → IsSystem s → IsRegionIn s w found → slice_get found.spans slot ≡ Some place
        → lies_in found.kind (ram_at s place.endpoint) (pmem_at s place.endpoint) place.start (slot_length found) ≡ true }
    ensures low { (s : System) (w : WindowFields) (found : Found) (slot : ℕ) (place : Place) → IsSystem s
        → IsRegionIn s w found → slice_get found.spans slot ≡ Some place
        → place.start + slot_length found ≤ address_limit }
{
    tree_laws();
    ranges_rise();
    spans_lie_in_partitions();
}

/// A law of regions: those of one image that share a host byte, or a byte of an endpoint's device, are one.
pub fn regions_share_no_byte()
    ensures host { (s : System) (w v : WindowFields) (found other : Found) (h : ℕ) → IsSystem s
        → IsRegionIn s w found → IsRegionIn s v other
        → found.base ≤ h → h < found.base + found.size → other.base ≤ h → h < other.base + other.size
        → found ≡ other }
    ensures device { (s : System) (w v : WindowFields) (found other : Found) (endpoint dpa : ℕ) → IsSystem s
        → IsRegionIn s w found → IsRegionIn s v other
        → LiesInSpan found endpoint dpa → LiesInSpan other endpoint dpa → found ≡ other }
{
    tree_laws();
    ranges_rise();
    spans_follow();
}

/// A law of spans: a byte of a region's spans lies in the span of one of the endpoint's committed decoders; and
/// in an accepted image each byte of those is one of a region.
pub fn committed_spans_are_of_regions()
    ensures committed { (s : System) (w : WindowFields) (found : Found) (endpoint dpa : ℕ) → IsRegionIn s w found
        → LiesInSpan found endpoint dpa → LiesInCommittedSpan s endpoint dpa }
    ensures region { (s : System) (endpoint dpa : ℕ) → IsSystem s → IsAccepted s
        → is_endpoint_at s.nodes endpoint ≡ true → LiesInCommittedSpan s endpoint dpa
        → (w : WindowFields) × (found : Found) × IsRegionIn s w found × LiesInSpan found endpoint dpa }
{
    one_holder();
    accepted_where_whole();
    whole_ranges_have_one_region();
    slots_are_endpoints();
}

/// A law of regions: one carries its host bytes one to one onto the bytes of its spans.
pub fn bytes_are_carried_one_to_one()
    ensures apart { (s : System) (w : WindowFields) (found : Found) (h other endpoint dpa : ℕ) → IsSystem s
        → IsRegionIn s w found → Carries found w h endpoint dpa → Carries found w other endpoint dpa
        → h ≡ other }
    ensures each { (s : System) (w : WindowFields) (found : Found) (h : ℕ) → IsSystem s
        → IsRegionIn s w found → found.base ≤ h → h < found.base + found.size
        → (endpoint : ℕ) × (dpa : ℕ) × Carries found w h endpoint dpa }
    ensures inside { (s : System) (w : WindowFields) (found : Found) (h endpoint dpa : ℕ) → IsSystem s
        → IsRegionIn s w found → Carries found w h endpoint dpa → LiesInSpan found endpoint dpa }
    ensures onto { (s : System) (w : WindowFields) (found : Found) (endpoint dpa : ℕ) → IsSystem s
        → IsRegionIn s w found → LiesInSpan found endpoint dpa → (h : ℕ) × Carries found w h endpoint dpa }
{
    tree_laws();
    ranges_rise();
    spans_are_whole();
    place_tells_address();
    region_fills_slots();
}

/// A law of regions: one carries the bytes of each 256 from its base on to bytes that follow each other, and
/// to 256 that start at a multiple of 256.
pub fn pieces_are_carried_whole()
    ensures aligned { (s : System) (w : WindowFields) (found : Found) (h endpoint dpa : ℕ) → IsSystem s
        → IsRegionIn s w found → Carries found w h endpoint dpa → dpa % 256 ≡ (h - found.base) % 256 }
    ensures together { (s : System) (w : WindowFields) (found : Found) (h k endpoint dpa : ℕ) → IsSystem s
        → IsRegionIn s w found → Carries found w h endpoint dpa → (h - found.base) % 256 + k < 256
        → Carries found w (h + k) endpoint (dpa + k) }
{
    tree_laws();
    ranges_rise();
    spans_are_whole();
    chunks_deal_whole();
}

/// A law of weaves: a region's is one, it has the region's ways, and its turns fill the slots, which have the
/// same number of bytes each.
pub fn weaves_fill_their_regions()
    ensures kept { (s : System) (w : WindowFields) (found : Found) → IsSystem s
        → IsRegionIn s w found → IsWeave (weave_fields found w) }
    ensures ways { (s : System) (w : WindowFields) (found : Found) → IsSystem s
        → IsRegionIn s w found → weave_ways (weave_fields found w) ≡ found.ways }
    ensures shares { (s : System) (w : WindowFields) (found : Found) → IsSystem s
        → IsRegionIn s w found → slot_length found * found.ways ≡ found.size }
    ensures turns { (s : System) (w : WindowFields) (found : Found) → IsSystem s
        → IsRegionIn s w found
        → turns_end (weave_fields found w) (slot_length found / chunk_size found.gran) ≡ found.base + found.size }
{
    tree_laws();
    ranges_rise();
    spans_are_whole();
}

/// A law of regions: one has some bytes, all of them in the window that stands at its index, and so below the
/// limit of host addresses.
pub fn regions_lie_in_windows()
    ensures there { (s : System) (w : WindowFields) (found : Found) → IsSystem s
        → IsRegionIn s w found → slice_get s.windows found.window ≡ Some w }
    ensures some { (s : System) (w : WindowFields) (found : Found) → IsSystem s
        → IsRegionIn s w found → 0 < found.size }
    ensures from { (s : System) (w : WindowFields) (found : Found) → IsSystem s
        → IsRegionIn s w found → w.base ≤ found.base }
    ensures ends { (s : System) (w : WindowFields) (found : Found) → IsSystem s
        → IsRegionIn s w found → found.base + found.size ≤ w.base + w.size }
    ensures low { (s : System) (w : WindowFields) (found : Found) → IsSystem s
        → IsRegionIn s w found → found.base + found.size ≤ address_limit }
{
    ranges_rise();
}

/// A law of changes: an image that keeps K1 to K8 and has the same decoders of a range as another one has the
/// same region of it, and K9 to K12 say the same of those decoders.
pub fn regions_stay()
    ensures region { (s t : System) (w : WindowFields) (found : Found)
        → HaveSameDecoders s t (region_range found) → KeepsBlocks t
        → IsRegionIn s w found → IsRegionIn t w found }
    ensures whole { (s t : System) (r : Range) → HaveSameDecoders s t r → KeepsBlocks t
        → IsWhole s r → IsWhole t r }
    ensures rules { (s t : System) (r : Range) (rule n i : ℕ) (d : Decoder) → HaveSameDecoders s t r
        → 9 ≤ rule → decoder_at s n i ≡ Some d → has_range r d ≡ true
        → breaks t rule n i ≡ breaks s rule n i }
{}

/// A law of images: the regions of an accepted image stand in one list by rising base, and in only one. Each
/// list of them has each.
pub fn regions_are_listed()
    ensures some { (s : System) → IsSystem s → IsAccepted s
        → (regions : List Found) × AreRegionsByBase s regions }
    ensures one { (s : System) (regions others : List Found) → IsSystem s
        → AreRegionsByBase s regions → AreRegionsByBase s others → regions ≡ others }
    ensures each { (s : System) (w : WindowFields) (found : Found) (regions : List Found) → IsSystem s
        → AreRegions s regions → IsRegionIn s w found → Contains regions found }
{
    tree_laws();
    ranges_rise();
}
