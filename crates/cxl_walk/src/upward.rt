//! The host address that leads to a device byte, by registers.

ghost use Rattle.std.specs.Prelude.{◌≡◌, ◌↔◌, ℕ, ◌+◌, ◌<◌, true, IsSome, IfSome, IfNone};
ghost use Rattle.cxl_enc.specs.Limits.{address_limit};
ghost use Rattle.cxl_topo.specs.Tree.{is_endpoint_at};
ghost use Rattle.cxl_regs.specs.Reading.{decoder_ways};
ghost use Rattle.cxl_window.specs.Windows.{AreMadeWith};
ghost use Rattle.cxl_image.specs.Images.{HasCapsOf};
ghost use Rattle.cxl_window.specs.Fields.{WindowFields};
ghost use Rattle.cxl_model.specs.declared.found.Found.{Found};
ghost use Rattle.cxl_model.specs.System.{system_of, bridge_uids};
ghost use Rattle.cxl_model.specs.Accepted.{IsAccepted};
ghost use Rattle.cxl_model.specs.Regions.{IsRegionIn};
ghost use Rattle.cxl_model.specs.Bytes.{LiesInSpan, LiesInCommittedSpan};
ghost use Rattle.cxl_walk.specs.Hosts.{ComesTo, HasNoHost, IsLeastHost};
ghost use Rattle.cxl_walk.specs.inner.WaysUp.{way_address, IsFirstWay};

use crate::downward::down;
use crate::spans::{SpanByte, committed_byte};
use cxl_image::Image;
use cxl_model::{
    bytes_are_carried_one_to_one, carries_where_chain_ends, committed_spans_are_of_regions,
    routes_are_of_regions,
};
use cxl_span::{addresses_go_into_spans, block_breach, spans_are_whole, spans_follow};
use cxl_topo::{Topo, capacity_at};
use cxl_window::Window;

/// A host address that leads to a device byte.
#[derive(Clone, Copy, PartialEq, Eq)]
pub struct HostByte {
    /// The first host address of the endpoint's decoder.
    pub base: u64,
    pub h: u64,
}

/// The least host address that leads to a byte of an endpoint's device, with the base of the endpoint's decoder, and
/// `None` exactly where none does. (CXL HDM decoders; that the least is named where images lead several to one byte
/// is this project's rule.)
pub fn up(image: &Image, topo: &Topo, windows: &[Window], ep: u32, dpa: u64) -> Option<HostByte>
    requires caps { HasCapsOf image.now topo.now.nodes }
    requires made { AreMadeWith windows.now (bridge_uids topo.now.nodes) }
    requires endpoint { is_endpoint_at topo.now.nodes ep ≡ true }
    ensures some { IfSome result (IsLeastHost (system_of image.now topo.now windows.now) ep dpa) }
    ensures none { IfNone result (HasNoHost (system_of image.now topo.now windows.now) ep dpa) }
    // Each byte of a region's spans has one.
    ensures spans { (w : WindowFields) (found : Found) → IsRegionIn (system_of image.now topo.now windows.now) w found
        → LiesInSpan found ep dpa → IsSome result }
    // In an accepted image there is no other one, and none but for these bytes.
    ensures one { IsAccepted (system_of image.now topo.now windows.now) → IfSome result (λ host. (first h : ℕ)
        → ComesTo (system_of image.now topo.now windows.now) ep dpa first h → h ≡ host.h) }
    ensures only { IsAccepted (system_of image.now topo.now windows.now) → IsSome result → (w : WindowFields) × (found : Found)
        × IsRegionIn (system_of image.now topo.now windows.now) w found × LiesInSpan found ep dpa }
    // There these are the bytes of the spans of the endpoint's committed decoders.
    ensures committed { IsAccepted (system_of image.now topo.now windows.now)
        → (IsSome result) ↔ (LiesInCommittedSpan (system_of image.now topo.now windows.now) ep dpa) }
{
    carries_where_chain_ends();
    bytes_are_carried_one_to_one();
    routes_are_of_regions();
    committed_spans_are_of_regions();
    let nodes = topo.count();
    let blocks = image.count();
    prove!(nodes == blocks);
    least(image, topo, windows, ep, dpa)
}

/// The same, by the spans of the endpoint's decoders.
fn least(image: &Image, topo: &Topo, windows: &[Window], ep: u32, dpa: u64) -> Option<HostByte>
    requires caps { HasCapsOf image.now topo.now.nodes }
    requires made { AreMadeWith windows.now (bridge_uids topo.now.nodes) }
    requires endpoint { is_endpoint_at topo.now.nodes ep ≡ true }
    ensures some { IfSome result (IsLeastHost (system_of image.now topo.now windows.now) ep dpa) }
    ensures none { IfNone result (HasNoHost (system_of image.now topo.now windows.now) ep dpa) }
{
    spans_follow();
    spans_are_whole();
    addresses_go_into_spans();
    let count = topo.count();
    prove!(ep < count);
    let block = image.block(ep);
    let capacity = capacity_at(topo, ep);
    if block_breach(block, capacity.ram, capacity.pmem).is_some() {
        return None;
    }
    let Some(byte) = committed_byte(block, &capacity, dpa) else {
        return None;
    };
    first_way(image, topo, windows, ep, dpa, &byte)
}

/// The first of the addresses, one for each way of the decoder, that leads to the byte.
fn first_way(
    image: &Image,
    topo: &Topo,
    windows: &[Window],
    ep: u32,
    dpa: u64,
    byte: &SpanByte,
) -> Option<HostByte>
    requires caps { HasCapsOf image.now topo.now.nodes }
    requires made { AreMadeWith windows.now (bridge_uids topo.now.nodes) }
    requires gran { byte.now.decoder.gran < 16 }
    requires base { byte.now.decoder.base < address_limit }
    requires along { byte.now.along < address_limit }
    ensures some { IfSome result (IsFirstWay (system_of image.now topo.now windows.now) ep dpa byte.now) }
    ensures none { IfNone result ((k first : ℕ) → k < decoder_ways byte.now.decoder
        → ComesTo (system_of image.now topo.now windows.now) ep dpa first (way_address byte.now.decoder byte.now.along k) → ⊥) }
{
    for way in 0..byte.decoder.interleave_ways() {
        let h = way_address(byte, way);
        if let Some(host) = leads_to(image, topo, windows, ep, dpa, h) {
            return Some(host);
        }
    }
    None
}

/// The address that the decoder would send to the byte by the way of this number.
fn way_address(byte: &SpanByte, way: u8) -> u64
    requires gran { byte.now.decoder.gran < 16 }
    requires base { byte.now.decoder.base < address_limit }
    requires along { byte.now.along < address_limit }
    ensures { result ≡ way_address byte.now.decoder byte.now.along way }
{
    let gran = u64::from(byte.decoder.interleave_granularity());
    let ways = u64::from(byte.decoder.interleave_ways());
    let chunk = byte.along / gran * ways + u64::from(way);
    byte.decoder.base + chunk * gran + byte.along % gran
}

/// The address, where it leads to the byte.
fn leads_to(
    image: &Image,
    topo: &Topo,
    windows: &[Window],
    ep: u32,
    dpa: u64,
    h: u64,
) -> Option<HostByte>
    requires caps { HasCapsOf image.now topo.now.nodes }
    requires made { AreMadeWith windows.now (bridge_uids topo.now.nodes) }
    ensures same { IfSome result (λ host. host.h ≡ h) }
    ensures some { IfSome result (λ host. ComesTo (system_of image.now topo.now windows.now) ep dpa host.base h) }
    ensures none { IfNone result ((first : ℕ) → ComesTo (system_of image.now topo.now windows.now) ep dpa first h → ⊥) }
{
    match down(image, topo, windows, h) {
        Ok(route) if route.endpoint == ep && route.dpa == dpa => Some(HostByte {
            base: route.base,
            h,
        }),
        _ => None,
    }
}
