//! Walks of addresses in worked hosts, accepted or not, with where each ends, and all addresses of a byte.

ghost use Rattle.cxl_window.specs.Windows.{AreMadeWith};
ghost use Rattle.cxl_image.specs.Images.{HasCapsOf};
ghost use Rattle.cxl_model.specs.System.{bridge_uids};

use crate::host_texts::{
    OVER_ONE, OVER_SIX_XOR, OVER_THREE_LONG, OVER_TWO, SIX_BY_ONE, SIX_WAYS, SIX_WAYS_FROM_THREE,
    THREE_BY_TWO, TWO_BY_ONE, TWO_FORWARDING, TWO_WAYS, TWO_WAYS_BELOW,
};
use crate::hosts::{Worked, host_of};
use crate::rows::{are_written, row_passes, shows};
use crate::walks::{BRIDGES_ALONE, ONE_OF_1_GIB, TWO_WAYS_OF_ONE};
use cxl_trace::{Outset, Step, hosts_of, walk};
use std::alloc::Global;
use std::process::Abort;

/// A name, a host, an address, and its walk: window, position and bridge, or nothing; the node, decoder and entry of each step;
/// and the end.
struct Row {
    name: &'static str,
    nodes: &'static str,
    windows: &'static str,
    ranges: &'static str,
    h: u64,
    outset: &'static str,
    steps: &'static str,
    end: &'static str,
}

fn is_walked(rt: &impl Abort, alloc: Global, row: &Row) -> bool {
    let host = host_of(rt, alloc, row.nodes, row.windows, row.ranges);
    let trace = walk(&host.image, &host.topo, &host.windows, row.h);
    let right = sets_out(rt, alloc, trace.outset, row.outset)
        && steps_are(rt, alloc, &trace.steps[..trace.len as usize], row.steps)
        && shows(alloc, &trace.end, row.end);
    drop(host);
    right
}

/// Whether a walk sets out where the text says, which is empty where no window holds the address.
fn sets_out(rt: &impl Abort, alloc: Global, outset: Option<Outset>, text: &str) -> bool {
    match outset {
        Some(outset) => {
            let own = [outset.window, outset.position, outset.bridge];
            are_written(rt, alloc, &own.map(u64::from), text)
        }
        None => text.is_empty(),
    }
}

/// Whether these are the steps that a text writes, with commas between them.
fn steps_are(rt: &impl Abort, alloc: Global, steps: &[Step], text: &str) -> bool {
    let mut own = Vec::new(alloc);
    for step in steps {
        own.push(u64::from(step.node)).expect(rt, "memory");
        own.push(u64::from(step.decoder)).expect(rt, "memory");
        own.push(u64::from(step.entry)).expect(rt, "memory");
    }
    are_written(rt, alloc, &own, text)
}

#[test]
fn walks_to_bytes(rt: HostRuntime) {
    for row in ROUTED.iter() {
        row_passes(&rt, row.name, is_walked(&rt, rt.alloc(), row));
    }
}

const ROUTED: [Row; 5] = [
    Row {
        name: "two ways",
        nodes: TWO_BY_ONE,
        windows: OVER_TWO,
        ranges: TWO_WAYS,
        h: 0x1_0000_0100,
        outset: "0 1 1",
        steps: "1 0 0",
        end: "Comes(EndByte { endpoint: 3, decoder: 0, base: 4294967296, dpa: 0 })",
    },
    Row {
        name: "six ways from three, the first bridge",
        nodes: THREE_BY_TWO,
        windows: OVER_THREE_LONG,
        ranges: SIX_WAYS_FROM_THREE,
        h: 0x1_0000_0600,
        outset: "0 0 0",
        steps: "0 0 0",
        end: "Comes(EndByte { endpoint: 3, decoder: 0, base: 4294967296, dpa: 256 })",
    },
    Row {
        name: "six ways under XOR",
        nodes: SIX_BY_ONE,
        windows: OVER_SIX_XOR,
        ranges: SIX_WAYS,
        h: 0x1_0000_4200,
        outset: "0 1 1",
        steps: "1 0 0",
        end: "Comes(EndByte { endpoint: 7, decoder: 0, base: 4294967296, dpa: 2816 })",
    },
    Row {
        name: "bridges that forward make no step",
        nodes: TWO_FORWARDING,
        windows: OVER_TWO,
        ranges: TWO_WAYS_BELOW,
        h: 0x1_0000_0100,
        outset: "0 1 1",
        steps: "",
        end: "Comes(EndByte { endpoint: 3, decoder: 0, base: 4294967296, dpa: 0 })",
    },
    Row {
        name: "an endpoint of two ways below a window of one",
        nodes: ONE_OF_1_GIB,
        windows: OVER_ONE,
        ranges: TWO_WAYS_OF_ONE,
        h: 0x1_0000_0100,
        outset: "0 0 0",
        steps: "0 0 0",
        end: "Comes(EndByte { endpoint: 1, decoder: 0, base: 4294967296, dpa: 0 })",
    },
];

#[test]
fn walks_that_are_lost(rt: HostRuntime) {
    for row in LOST.iter() {
        row_passes(&rt, row.name, is_walked(&rt, rt.alloc(), row));
    }
}

const LOST: [Row; 8] = [
    Row {
        name: "an address in no window",
        nodes: TWO_BY_ONE,
        windows: OVER_TWO,
        ranges: "",
        h: 0x2_0000_0000,
        outset: "",
        steps: "",
        end: "Lost(NoWindow)",
    },
    Row {
        name: "a bridge that decodes nothing",
        nodes: TWO_BY_ONE,
        windows: OVER_TWO,
        ranges: "",
        h: 0x1_0000_0100,
        outset: "0 1 1",
        steps: "",
        end: "Lost(NoDecoder(1))",
    },
    Row {
        name: "an endpoint that decodes nothing, behind a step",
        nodes: TWO_BY_ONE,
        windows: OVER_TWO,
        ranges: BRIDGES_ALONE,
        h: 0x1_0000_0100,
        outset: "0 1 1",
        steps: "1 0 0",
        end: "Lost(NoDecoder(3))",
    },
    Row {
        name: "an address behind the bridges' range",
        nodes: TWO_BY_ONE,
        windows: OVER_TWO,
        ranges: BRIDGES_ALONE,
        h: 0x1_2000_0000,
        outset: "0 0 0",
        steps: "",
        end: "Lost(NoDecoder(0))",
    },
    Row {
        name: "an entry without a child",
        nodes: TWO_BY_ONE,
        windows: OVER_TWO,
        ranges: "0 2 0 0x100000000 0x20000000 0 7",
        h: 0x1_0000_0000,
        outset: "0 0 0",
        steps: "",
        end: "Lost(NoChild(0))",
    },
    Row {
        name: "bridges that forward, with nothing below",
        nodes: "0x10, 0x10",
        windows: OVER_TWO,
        ranges: "",
        h: 0x1_0000_0100,
        outset: "0 1 1",
        steps: "",
        end: "Lost(NoChild(1))",
    },
    Row {
        name: "a committed decoder of no bytes",
        nodes: TWO_BY_ONE,
        windows: OVER_TWO,
        ranges: "0 2 0 0x100000000 0 0 0",
        h: 0x1_0000_0000,
        outset: "0 0 0",
        steps: "",
        end: "Lost(BadBlock(0))",
    },
    Row {
        name: "an endpoint's decoder of no bytes, behind a step",
        nodes: TWO_BY_ONE,
        windows: OVER_TWO,
        ranges: "0 2 0 0x100000000 0x20000000 0 0, 2 3 0 0x100000000 0 0 0",
        h: 0x1_0000_0000,
        outset: "0 0 0",
        steps: "0 0 0",
        end: "Lost(BadBlock(2))",
    },
];

/// A name, a host, an endpoint, a byte of its device, and all addresses that come to it.
struct Hosted {
    name: &'static str,
    nodes: &'static str,
    windows: &'static str,
    ranges: &'static str,
    endpoint: u32,
    dpa: u64,
    hosts: &'static str,
}

fn is_hosted(rt: &impl Abort, alloc: Global, row: &Hosted) -> bool {
    let host = host_of(rt, alloc, row.nodes, row.windows, row.ranges);
    let right = has_hosts(rt, alloc, &host, row);
    drop(host);
    right
}

fn has_hosts(rt: &impl Abort, alloc: Global, host: &Worked, row: &Hosted) -> bool
    requires caps { HasCapsOf host.now.image host.now.topo.nodes }
    requires made { AreMadeWith host.now.windows.items (bridge_uids host.now.topo.nodes) }
{
    if row.endpoint >= host.topo.count() || !host.topo.is_endpoint(row.endpoint) {
        return false;
    }
    let hosts = hosts_of(
        alloc,
        &host.image,
        &host.topo,
        &host.windows,
        row.endpoint,
        row.dpa,
    );
    are_written(rt, alloc, &hosts.expect(rt, "memory"), row.hosts)
}

#[test]
fn all_addresses_of_a_byte(rt: HostRuntime) {
    for row in HOSTED.iter() {
        row_passes(&rt, row.name, is_hosted(&rt, rt.alloc(), row));
    }
}

/// Endpoints of four ways below a window of two.
const FOUR_WAYS_OF_TWO: &str =
    "0 2 0 0x100000000 0x40000000 0 0, 2 4 0 0x100000000 0x40000000 0x20 0";

const HOSTED: [Hosted; 8] = [
    Hosted {
        name: "two ways, the second endpoint",
        nodes: TWO_BY_ONE,
        windows: OVER_TWO,
        ranges: TWO_WAYS,
        endpoint: 3,
        dpa: 0,
        hosts: "0x100000100",
    },
    Hosted {
        name: "two ways, the end of a chunk",
        nodes: TWO_BY_ONE,
        windows: OVER_TWO,
        ranges: TWO_WAYS,
        endpoint: 2,
        dpa: 0x1ff,
        hosts: "0x1000002ff",
    },
    Hosted {
        name: "behind the span",
        nodes: TWO_BY_ONE,
        windows: OVER_TWO,
        ranges: TWO_WAYS,
        endpoint: 3,
        dpa: 0x1000_0000,
        hosts: "",
    },
    Hosted {
        name: "two addresses of one byte",
        nodes: ONE_OF_1_GIB,
        windows: OVER_ONE,
        ranges: TWO_WAYS_OF_ONE,
        endpoint: 1,
        dpa: 0,
        hosts: "0x100000000 0x100000100",
    },
    Hosted {
        name: "two addresses of another byte",
        nodes: ONE_OF_1_GIB,
        windows: OVER_ONE,
        ranges: TWO_WAYS_OF_ONE,
        endpoint: 1,
        dpa: 0x1ff,
        hosts: "0x1000002ff 0x1000003ff",
    },
    Hosted {
        name: "four ways below two, the first endpoint",
        nodes: TWO_BY_ONE,
        windows: OVER_TWO,
        ranges: FOUR_WAYS_OF_TWO,
        endpoint: 2,
        dpa: 0,
        hosts: "0x100000000 0x100000200",
    },
    Hosted {
        name: "four ways below two, the second endpoint",
        nodes: TWO_BY_ONE,
        windows: OVER_TWO,
        ranges: FOUR_WAYS_OF_TWO,
        endpoint: 3,
        dpa: 0x105,
        hosts: "0x100000505 0x100000705",
    },
    Hosted {
        name: "a byte whose address goes to the other bridge",
        nodes: TWO_BY_ONE,
        windows: OVER_TWO,
        ranges: "0 2 0 0x100000000 0x10000000 0 0, 2 4 0 0x100000000 0x10000000 0 0",
        endpoint: 2,
        dpa: 0x100,
        hosts: "",
    },
];
