//! Where addresses lead in worked hosts: by their registers, by kept routes, and back.

ghost use Rattle.std.specs.Prelude.{◌+◌, ◌<◌, ◌≤◌, All};
ghost use Rattle.cxl_window.specs.Windows.{AreMadeWith};
ghost use Rattle.cxl_image.specs.Images.{HasCapsOf};
ghost use Rattle.cxl_model.specs.System.{system_of, bridge_uids};
ghost use Rattle.cxl_model.specs.Regions.{IsRegion};

use crate::breaches::breaks;
use crate::host_texts::{
    OVER_ONE, OVER_SIX_XOR, OVER_THREE_LONG, OVER_TWO, SIX_BY_ONE, SIX_WAYS, SIX_WAYS_FROM_THREE,
    THREE_BY_TWO, TWO_BY_ONE, TWO_FORWARDING, TWO_WAYS, TWO_WAYS_BELOW,
};
use crate::hosts::{Worked, host_of};
use crate::rows::{as_byte, as_word, at, numbers, row_passes, shows};
use cxl_check::{Breach, check};
use cxl_model::{Found, Step};
use cxl_walk::{HostByte, Kept, Route, down, up};
use std::alloc::Global;
use std::process::Abort;

/// The route that is written as its position, base, endpoint, decoder and device address, and the node, decoder and
/// entry of each step, of which there are five at the most; by window 0.
pub(crate) fn route_of(rt: &impl Abort, numbers: &[u64]) -> Route {
    let len = numbers.len().saturating_sub(5) / 3;
    assert!(rt; len <= 5 && numbers.len() == 5 + 3 * len);
    let steps = [
        step_of(rt, numbers, 5),
        step_of(rt, numbers, 8),
        step_of(rt, numbers, 11),
        step_of(rt, numbers, 14),
        step_of(rt, numbers, 17),
    ];
    Route {
        window: 0,
        position: as_word(rt, numbers, 0),
        base: at(rt, numbers, 1),
        len: len as u8,
        steps,
        endpoint: as_word(rt, numbers, 2),
        decoder: as_byte(rt, numbers, 3),
        dpa: at(rt, numbers, 4),
    }
}

/// The step that is written from a place on; behind the last, zeros.
fn step_of(rt: &impl Abort, numbers: &[u64], i: u8) -> Step {
    let i = usize::from(i);
    if i >= numbers.len() {
        return Step {
            node: 0,
            decoder: 0,
            entry: 0,
        };
    }
    Step {
        node: as_word(rt, numbers, i),
        decoder: as_byte(rt, numbers, i + 1),
        entry: as_byte(rt, numbers, i + 2),
    }
}

/// The address that leads to the byte, where the node is an endpoint.
fn up_from(host: &Worked, node: u32, dpa: u64) -> Option<HostByte>
    requires caps { HasCapsOf host.now.image host.now.topo.nodes }
    requires made { AreMadeWith host.now.windows.items (bridge_uids host.now.topo.nodes) }
{
    if node < host.topo.count() && host.topo.is_endpoint(node) {
        up(&host.image, &host.topo, &host.windows, node, dpa)
    } else {
        None
    }
}

/// The route that is kept for the address, where the image is accepted and a region holds it.
fn kept_route(alloc: Global, host: &Worked, h: u64) -> Option<Route>
    requires caps { HasCapsOf host.now.image host.now.topo.nodes }
    requires made { AreMadeWith host.now.windows.items (bridge_uids host.now.topo.nodes) }
{
    match check(alloc, &host.image, &host.topo, &host.windows) {
        Ok(regions) => kept_in(alloc, host, &regions, h),
        Err(_) => None,
    }
}

/// The route that is kept for the address in the one of these regions that holds it.
fn kept_in(alloc: Global, host: &Worked, regions: &[Found], h: u64) -> Option<Route>
    requires caps { HasCapsOf host.now.image host.now.topo.nodes }
    requires made { AreMadeWith host.now.windows.items (bridge_uids host.now.topo.nodes) }
    requires regions { All (IsRegion (system_of host.now.image host.now.topo host.now.windows.items)) regions.now }
{
    for region in regions {
        if region.base <= h && h - region.base < region.size {
            return route_in(alloc, host, region, h);
        }
    }
    None
}

/// The route that is kept for an address of a region.
fn route_in(alloc: Global, host: &Worked, region: &Found, h: u64) -> Option<Route>
    requires caps { HasCapsOf host.now.image host.now.topo.nodes }
    requires made { AreMadeWith host.now.windows.items (bridge_uids host.now.topo.nodes) }
    requires region { IsRegion (system_of host.now.image host.now.topo host.now.windows.items) region.now }
    requires from { region.now.base ≤ h }
    requires below { h < region.now.base + region.now.size }
{
    let _nodes = host.topo.count();
    let _blocks = host.image.count();
    let kept = Kept::new(alloc, &host.image, &host.topo, &host.windows, region).ok()?;
    Some(kept.route(h))
}

/// Whether an address goes by this route, by the registers and by kept routes, and comes back from its end.
fn goes(alloc: Global, host: &Worked, h: u64, route: Route) -> bool
    requires caps { HasCapsOf host.now.image host.now.topo.nodes }
    requires made { AreMadeWith host.now.windows.items (bridge_uids host.now.topo.nodes) }
{
    down(&host.image, &host.topo, &host.windows, h) == Ok(route)
        && kept_route(alloc, host, h) == Some(route)
        && comes_back(host, route.endpoint, route.dpa, route.base, h)
}

/// Whether the address comes back from a byte of an endpoint's device.
fn comes_back(host: &Worked, node: u32, dpa: u64, base: u64, h: u64) -> bool
    requires caps { HasCapsOf host.now.image host.now.topo.nodes }
    requires made { AreMadeWith host.now.windows.items (bridge_uids host.now.topo.nodes) }
{
    up_from(host, node, dpa) == Some(HostByte { base, h })
}

/// A name, a host, an address, and where it goes: a route, or the miss.
struct Row {
    name: &'static str,
    nodes: &'static str,
    windows: &'static str,
    ranges: &'static str,
    h: u64,
    way: &'static str,
}

fn is_routed(rt: &impl Abort, alloc: Global, row: &Row) -> bool {
    let host = host_of(rt, alloc, row.nodes, row.windows, row.ranges);
    let route = route_of(rt, &numbers(rt, alloc, row.way));
    let right = goes(alloc, &host, row.h, route);
    drop(host);
    right
}

/// Checks each row.
fn are_routed(rt: &(impl Abort + AllocGlobal), rows: &[Row]) {
    for row in rows {
        row_passes(rt, row.name, is_routed(rt, rt.alloc(), row));
    }
}

#[test]
fn routes(rt: HostRuntime) {
    are_routed(&rt, ROUTES);
}

const ROUTES: &[Row] = &[
    Row {
        name: "two ways",
        nodes: TWO_BY_ONE,
        windows: OVER_TWO,
        ranges: TWO_WAYS,
        h: 0x1_0000_0100,
        way: "1 0x100000000 3 0 0  1 0 0",
    },
    Row {
        name: "six ways from three, the first bridge",
        nodes: THREE_BY_TWO,
        windows: OVER_THREE_LONG,
        ranges: SIX_WAYS_FROM_THREE,
        h: 0x1_0000_0600,
        way: "0 0x100000000 3 0 0x100  0 0 0",
    },
    Row {
        name: "six ways under XOR",
        nodes: SIX_BY_ONE,
        windows: OVER_SIX_XOR,
        ranges: SIX_WAYS,
        h: 0x1_0000_4200,
        way: "1 0x100000000 7 0 0xb00  1 0 0",
    },
    Row {
        name: "bridges that forward make no step",
        nodes: TWO_FORWARDING,
        windows: OVER_TWO,
        ranges: TWO_WAYS_BELOW,
        h: 0x1_0000_0100,
        way: "1 0x100000000 3 0 0",
    },
];

fn is_missed(rt: &impl Abort, alloc: Global, row: &Row) -> bool {
    let host = host_of(rt, alloc, row.nodes, row.windows, row.ranges);
    let way = down(&host.image, &host.topo, &host.windows, row.h);
    let missed = shows(alloc, &way, row.way) && kept_route(alloc, &host, row.h).is_none();
    drop(host);
    missed
}

#[test]
fn misses(rt: HostRuntime) {
    for row in MISSES.iter() {
        row_passes(&rt, row.name, is_missed(&rt, rt.alloc(), row));
    }
}

pub(crate) const BRIDGES_ALONE: &str = "0 2 0 0x100000000 0x20000000 0 0";

const MISSES: [Row; 7] = [
    Row {
        name: "an address in no window",
        nodes: TWO_BY_ONE,
        windows: OVER_TWO,
        ranges: "",
        h: 0x2_0000_0000,
        way: "Err(NoWindow)",
    },
    Row {
        name: "a bridge that decodes nothing",
        nodes: TWO_BY_ONE,
        windows: OVER_TWO,
        ranges: "",
        h: 0x1_0000_0100,
        way: "Err(NoDecoder(1))",
    },
    Row {
        name: "an endpoint that decodes nothing",
        nodes: TWO_BY_ONE,
        windows: OVER_TWO,
        ranges: BRIDGES_ALONE,
        h: 0x1_0000_0000,
        way: "Err(NoDecoder(2))",
    },
    Row {
        name: "an address behind the bridges' range",
        nodes: TWO_BY_ONE,
        windows: OVER_TWO,
        ranges: BRIDGES_ALONE,
        h: 0x1_2000_0000,
        way: "Err(NoDecoder(0))",
    },
    Row {
        name: "a port at which no child stands",
        nodes: TWO_BY_ONE,
        windows: OVER_TWO,
        ranges: "0 2 0 0x100000000 0x20000000 0 7",
        h: 0x1_0000_0000,
        way: "Err(NoChild(0))",
    },
    Row {
        name: "bridges that forward, with nothing below",
        nodes: "0x10, 0x10",
        windows: OVER_TWO,
        ranges: "",
        h: 0x1_0000_0100,
        way: "Err(NoChild(1))",
    },
    Row {
        name: "a committed decoder of no bytes",
        nodes: TWO_BY_ONE,
        windows: OVER_TWO,
        ranges: "0 2 0 0x100000000 0 0 0",
        h: 0x1_0000_0000,
        way: "Err(BadBlock(0))",
    },
];

/// Whether both addresses lead to this byte, from which the lower one comes back.
fn meet(rt: &impl Abort, host: &Worked, low: u64, high: u64, dpa: u64) -> bool
    requires caps { HasCapsOf host.now.image host.now.topo.nodes }
    requires made { AreMadeWith host.now.windows.items (bridge_uids host.now.topo.nodes) }
{
    let route = route_of(rt, &[0, 0x1_0000_0000, 1, 0, dpa, 0, 0, 0]);
    down(&host.image, &host.topo, &host.windows, low) == Ok(route)
        && down(&host.image, &host.topo, &host.windows, high) == Ok(route)
        && comes_back(host, 1, dpa, 0x1_0000_0000, low)
}

/// A bridge of one way above an endpoint of two.
const BOTH_BY_ONE: Breach = Breach {
    rule: 12,
    node: 1,
    decoder: 0,
};

/// An endpoint of two ways below a bridge and a window of one: two addresses lead to each byte.
#[test]
fn the_least_of_two_that_meet(rt: HostRuntime) {
    let host = host_of(&rt, rt.alloc(), ONE_OF_1_GIB, OVER_ONE, TWO_WAYS_OF_ONE);
    assert!(rt; breaks(rt.alloc(), &host, &host.image, BOTH_BY_ONE));
    assert!(rt; meet(&rt, &host, 0x1_0000_0000, 0x1_0000_0100, 0));
    assert!(rt; meet(&rt, &host, 0x1_0000_02ff, 0x1_0000_03ff, 0x1ff));
    drop(host);
}

pub(crate) const ONE_OF_1_GIB: &str = "0x382, 0x1b02 0 0 0x40000000 0";

pub(crate) const TWO_WAYS_OF_ONE: &str =
    "0 1 0 0x100000000 0x20000000 0 0, 1 2 0 0x100000000 0x20000000 0x10 0";
