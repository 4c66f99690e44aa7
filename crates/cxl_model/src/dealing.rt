//! Laws of where the chains of host bytes go, each the contract of a function that does nothing.

ghost use Rattle.std.specs.Prelude.{◌≡◌, ◌↔◌, ℕ, ◌+◌, ◌<◌, ◌≤◌};
ghost use Rattle.cxl_window.specs.Fields.{WindowFields};
ghost use Rattle.cxl_model.specs.declared.found.Found.{Found};
ghost use Rattle.cxl_model.specs.System.{System, IsSystem};
ghost use Rattle.cxl_model.specs.Chain.{Routing, ChainEnd, Routed, Chain, HasRoute};
ghost use Rattle.cxl_regs.specs.declared.reading.Range.{Range};
ghost use Rattle.cxl_model.specs.Ranges.{IsCommittedRange};
ghost use Rattle.cxl_model.specs.Accepted.{IsAccepted, KeepsBlocks};
ghost use Rattle.cxl_model.specs.Regions.{region_range, IsRegionIn, LiesInRegion, Carries};
ghost use Rattle.cxl_model.specs.Bytes.{LiesInSpan};
ghost use Rattle.cxl_model.specs.Dealing.{IsDealtRoute};
ghost use Rattle.cxl_model.specs.Changes.{HaveSameDecoders, HaveSameOwnDecoders};

use crate::laws::{accepted_where_whole, chains_have_one_end};
use crate::regions::{
    bytes_are_carried_one_to_one, regions_share_no_byte, regions_stay, weaves_fill_their_regions,
    whole_ranges_have_one_region,
};
use cxl_deal::{region_fills_slots, slots_keep_entries, slots_keep_positions};
use cxl_span::{addresses_go_into_spans, spans_follow};
use cxl_topo::tree_laws;

/// A law of regions: the chain of each of its host bytes is a route, over the target and by the steps of
/// its slot, to the byte to which the region carries it, and nothing else.
pub fn chain_is_the_dealing()
    ensures route { (s : System) (w : WindowFields) (found : Found) (h : ℕ) → IsSystem s
        → IsRegionIn s w found → found.base ≤ h → h < found.base + found.size
        → (route : Routing) × Chain s h (Routed route) × IsDealtRoute s w found h route }
    ensures only { (s : System) (w : WindowFields) (found : Found) (h : ℕ) (outcome : ChainEnd) → IsSystem s
        → IsRegionIn s w found → found.base ≤ h → h < found.base + found.size → Chain s h outcome
        → (route : Routing) × (outcome ≡ Routed route) × IsDealtRoute s w found h route }
{
    tree_laws();
    region_fills_slots();
    slots_keep_positions();
    slots_keep_entries();
    weaves_fill_their_regions();
    chains_have_one_end();
}

/// A law of chains: an address whose chain is a route lies in a committed range, with the route's base.
pub fn routes_lie_in_ranges()
    ensures { (s : System) (h : ℕ) (route : Routing) → Chain s h (Routed route)
        → (r : Range) × IsCommittedRange s r × (r.base ≡ route.arrival.base) × (r.base ≤ h)
        × (h < r.base + r.size) }
{}

/// A law of regions: a host byte is carried to one byte of one device, and there its chain ends.
pub fn carries_where_chain_ends()
    ensures one { (found : Found) (w : WindowFields) (h endpoint dpa other place : ℕ)
        → Carries found w h endpoint dpa → Carries found w h other place
        → (endpoint ≡ other) × (dpa ≡ place) }
    ensures ends { (s : System) (w : WindowFields) (found : Found) (h endpoint dpa : ℕ) → IsSystem s
        → IsRegionIn s w found → Carries found w h endpoint dpa → (route : Routing)
        × Chain s h (Routed route) × (route.arrival.endpoint ≡ endpoint) × (route.arrival.dpa ≡ dpa) }
{
    chain_is_the_dealing();
}

/// A law of accepted images: the chain of an address is a route exactly on the host bytes of their regions, as
/// the dealing says, and two addresses never come to one byte of a device.
pub fn routes_are_of_regions()
    ensures exactly { (s : System) (h : ℕ) → IsSystem s → IsAccepted s → (HasRoute s h) ↔ (LiesInRegion s h) }
    ensures only { (s : System) (h : ℕ) (route : Routing) → IsSystem s → IsAccepted s
        → Chain s h (Routed route) → (w : WindowFields) × (found : Found)
        × IsRegionIn s w found × IsDealtRoute s w found h route }
    ensures apart { (s : System) (h i : ℕ) (one other : Routing) → IsSystem s → IsAccepted s
        → Chain s h (Routed one) → Chain s i (Routed other)
        → one.arrival.endpoint ≡ other.arrival.endpoint → one.arrival.dpa ≡ other.arrival.dpa → h ≡ i }
{
    accepted_where_whole();
    whole_ranges_have_one_region();
    regions_share_no_byte();
    chain_is_the_dealing();
    routes_lie_in_ranges();
    bytes_are_carried_one_to_one();
}

/// A law of chains: one that ends on a region's span, in an accepted image or not, is that of the host byte which
/// the region carries there, and comes by a decoder with the region's base.
pub fn chains_to_spans_are_of_regions()
    ensures { (s : System) (w : WindowFields) (found : Found) (h endpoint dpa : ℕ) (route : Routing) → IsSystem s
        → IsRegionIn s w found → LiesInSpan found endpoint dpa → Chain s h (Routed route)
        → route.arrival.endpoint ≡ endpoint → route.arrival.dpa ≡ dpa
        → Carries found w h endpoint dpa × (route.arrival.base ≡ found.base) }
{
    spans_follow();
    addresses_go_into_spans();
    chain_is_the_dealing();
}

/// A law of changes: images with the same decoders of a region's range deal its host bytes the same routes; and
/// where the region is one of both, the chain of each of these bytes is the same in both. It is one of both where the
/// images have the same decoders below these too, and the second keeps K1 to K8.
pub fn routes_stay()
    ensures dealt { (s t : System) (w : WindowFields) (found : Found) (h : ℕ) (route : Routing)
        → HaveSameOwnDecoders s t (region_range found)
        → (IsDealtRoute s w found h route) ↔ (IsDealtRoute t w found h route) }
    ensures own { (s t : System) (w : WindowFields) (found : Found) (h : ℕ) (outcome : ChainEnd) → IsSystem s
        → IsSystem t → HaveSameOwnDecoders s t (region_range found)
        → IsRegionIn s w found → IsRegionIn t w found → found.base ≤ h → h < found.base + found.size
        → (Chain s h outcome) ↔ (Chain t h outcome) }
    ensures chain { (s t : System) (w : WindowFields) (found : Found) (h : ℕ) (outcome : ChainEnd) → IsSystem s
        → IsSystem t → HaveSameDecoders s t (region_range found) → KeepsBlocks t
        → IsRegionIn s w found → found.base ≤ h → h < found.base + found.size
        → (Chain s h outcome) ↔ (Chain t h outcome) }
{
    regions_stay();
    chain_is_the_dealing();
}
