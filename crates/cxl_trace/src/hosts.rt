//! All host addresses that come to a device byte, by registers.

ghost use Rattle.std.specs.Prelude.{◌≡◌, ◌↔◌, ℕ, ◌+◌, ◌*◌, ◌<◌, ◌≤◌, [], true, List, Some, length, slice_get, IsTrue, IfOk};
ghost use Rattle.cxl_enc.specs.Limits.{address_limit};
ghost use Rattle.cxl_topo.specs.Tree.{is_endpoint_at};
ghost use Rattle.cxl_window.specs.Windows.{AreMadeWith};
ghost use Rattle.cxl_image.specs.Images.{HasCapsOf};
ghost use Rattle.cxl_model.specs.Hosts.{as_system};
ghost use Rattle.cxl_model.specs.System.{System, IsSystem, system_of, bridge_uids};
ghost use Rattle.cxl_model.specs.Accepted.{IsAccepted};
ghost use Rattle.cxl_walk.specs.declared.upward.HostByte.{HostByte};
ghost use Rattle.cxl_walk.specs.Hosts.{HasNoHost, IsLeastHost};
ghost use Rattle.cxl_trace.specs.HostLists.{Reaches, AreHostsOf};
ghost use Rattle.cxl_trace.specs.inner.Candidates.{AreReached};

use cxl_image::Image;
use cxl_model::{Host, Memory, routes_are_of_regions};
use cxl_span::{addresses_go_into_spans, ranges_rise, spans_follow};
use cxl_topo::Topo;
use cxl_walk::{down, up};
use cxl_window::Window;
use std::alloc::Global;

/// All host addresses that come to a byte of an endpoint's device, rising; in an accepted image there is one or none. Of the
/// decoder whose span holds the byte, one address for each of its ways is tried. (CXL HDM decoders.) Takes memory.
pub fn hosts_of(
    alloc: Global,
    image: &Image,
    topo: &Topo,
    windows: &[Window],
    ep: u32,
    dpa: u64,
) -> Result<Vec<u64>, Memory>
    requires caps { HasCapsOf image.now topo.now.nodes }
    requires made { AreMadeWith windows.now (bridge_uids topo.now.nodes) }
    requires endpoint { is_endpoint_at topo.now.nodes ep ≡ true }
    ensures hosts { IfOk result (λ hosts. AreHostsOf (system_of image.now topo.now windows.now) ep dpa hosts.items) }
    // The first is the least, which `up` tells.
    ensures first { IfOk result (λ hosts. (host : HostByte)
        → IsLeastHost (system_of image.now topo.now windows.now) ep dpa host → slice_get hosts.items 0 ≡ Some host.h) }
    ensures none { IfOk result (λ hosts. HasNoHost (system_of image.now topo.now windows.now) ep dpa → hosts.items ≡ []) }
    ensures one { IsAccepted (system_of image.now topo.now windows.now) → IfOk result (λ hosts. length hosts.items ≤ 1) }
{
    host_lists();
    let _nodes = topo.count();
    let _blocks = image.count();
    let host = Host {
        image,
        topo,
        windows,
    };
    listed(alloc, &host, ep, dpa)
}

/// The same, by the addresses that are tried.
fn listed(alloc: Global, host: &Host<'_>, ep: u32, dpa: u64) -> Result<Vec<u64>, Memory>
    requires caps { HasCapsOf host.now.image.now host.now.topo.now.nodes }
    requires made { AreMadeWith host.now.windows.now (bridge_uids host.now.topo.now.nodes) }
    requires endpoint { is_endpoint_at host.now.topo.now.nodes ep ≡ true }
    ensures { IfOk result (λ hosts. AreHostsOf (as_system host.now) ep dpa hosts.items) }
{
    addresses_go_into_spans();
    ranges_rise();
    spans_follow();
    let Some(least) = up(host.image, host.topo, host.windows, ep, dpa) else {
        return Ok(Vec::new(alloc));
    };
    let count = host.topo.count();
    prove!(ep < count);
    // The address comes to the byte, by this decoder.
    let route = down(host.image, host.topo, host.windows, least.h).unwrap();
    let decoder = host.image.block(ep).decoder(route.decoder);
    let apart = decoder.interleave_granularity();
    let left = decoder.interleave_ways() - decoder.entry_of(least.h);
    those_reached(alloc, host, ep, dpa, least.h, apart, left)
}

/// Of so many addresses, each so far behind the one before, those that come to the byte. Takes memory.
fn those_reached(
    alloc: Global,
    host: &Host<'_>,
    ep: u32,
    dpa: u64,
    first: u64,
    apart: u32,
    count: u8,
) -> Result<Vec<u64>, Memory>
    requires caps { HasCapsOf host.now.image.now host.now.topo.now.nodes }
    requires made { AreMadeWith host.now.windows.now (bridge_uids host.now.topo.now.nodes) }
    requires first { first < address_limit }
    requires apart { 0 < apart }
    ensures { IfOk result (λ hosts. AreReached (as_system host.now) ep dpa first apart count hosts.items) }
{
    let mut hosts = Vec::new(alloc);
    for k in 0..count {
        let h = first + u64::from(k) * u64::from(apart);
        if reaches(host, ep, dpa, h) {
            hosts.push(h)?;
        }
    }
    Ok(hosts)
}

/// Whether an address comes to the byte.
fn reaches(host: &Host<'_>, ep: u32, dpa: u64, h: u64) -> bool
    requires caps { HasCapsOf host.now.image.now host.now.topo.now.nodes }
    requires made { AreMadeWith host.now.windows.now (bridge_uids host.now.topo.now.nodes) }
    ensures { IsTrue result ↔ Reaches (as_system host.now) ep dpa h }
{
    match down(host.image, host.topo, host.windows, h) {
        Ok(route) => route.endpoint == ep && route.dpa == dpa,
        Err(_) => false,
    }
}

/// A law of such lists: the first is the least address that comes to the byte, none are there exactly where none comes, and in an
/// accepted image there is one at the most.
pub fn host_lists()
    ensures first { (s : System) (ep dpa : ℕ) (hosts : List ℕ) (host : HostByte) → AreHostsOf s ep dpa hosts
        → IsLeastHost s ep dpa host → slice_get hosts 0 ≡ Some host.h }
    ensures none { (s : System) (ep dpa : ℕ) (hosts : List ℕ) → AreHostsOf s ep dpa hosts
        → (hosts ≡ []) ↔ HasNoHost s ep dpa }
    ensures one { (s : System) (ep dpa : ℕ) (hosts : List ℕ) → IsSystem s → IsAccepted s → AreHostsOf s ep dpa hosts
        → length hosts ≤ 1 }
{
    routes_are_of_regions();
}
