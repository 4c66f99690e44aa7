//! Trees of nodes: those of topology files, what they tell of a node, and the first fault of nodes that no file states. Faults of
//! files stand in `worked/faults`.

use crate::common::{row_passes, rows};
use cxl_topo::{Capacity, Name, Node, NodeKind, Parent, Topo, TreeFault};
use cxl_topofile::read_topo;
use std::process::Abort;

/// Two bridges, a switch below the first, and an endpoint below the other.
const PLAIN: &str = r#"
[[bridge]]
name = "hb0"
uid = 0
[[bridge]]
name = "hb1"
uid = 7
[[switch]]
name = "s0"
parent = "hb0"
port = 0
[[endpoint]]
name = "e0"
parent = "hb1"
port = 0
ram = 0x80000000
"#;

/// A bridge that forwards, two switches in the other order of sections, an endpoint, and other values.
const INLINE: &str = r#"frames = 2
switch = [{ name = "s0", parent = "hb0", port = 255, targets = 2, decoders = 1, low = false },
  { name = "s1", parent = "s0", port = 1, high = false, decoders = 10 }]
bridge = [{ name = "hb0", uid = 4294967295, passthrough = true }]
endpoint = [{ name = "e0", parent = "s1", port = 0, ways3 = false, ways16 = false, pmem = 0x10000000 }]
"#;

/// Two bridges of which one forwards, and below the other one a switch that forwards, with an endpoint.
const FORWARDING: &str = r#"
bridge = [{ name = "hb0", uid = 0 }, { name = "hb1", uid = 7, passthrough = true }]
switch = [{ name = "s0", parent = "hb0", port = 1, passthrough = true }]
endpoint = [{ name = "e0", parent = "s0", port = 9, ram = 0x80000000 }]
"#;

fn tree(rt: &(impl Abort + AllocGlobal), text: &str) -> Topo {
    read_topo(rt.alloc(), text.as_bytes())
        .ok()
        .expect(rt, "a topology")
}

fn finds(topo: &Topo, name: &str, node: u32) -> bool {
    match Name::read(name.as_bytes()) {
        Some(name) => topo.find(&name) == Some(node),
        None => false,
    }
}

/// Whether a tree's four nodes have these capability words, and its last one is an endpoint with so many bytes of each kind.
fn are_four(topo: &Topo, caps: [u32; 4], ram: u64, pmem: u64) -> bool {
    if topo.count() != 4 {
        return false;
    }
    let first = (topo.node(0).cap, topo.node(1).cap);
    let last = (topo.node(2).cap, topo.node(3).cap);
    first == (caps[0], caps[1])
        && last == (caps[2], caps[3])
        && topo.node(3).kind == NodeKind::Endpoint(Capacity { ram, pmem })
}

/// Whether the path of the last of four nodes has so many nodes, which are these.
fn is_path(topo: &Topo, len: u8, nodes: [u32; 6]) -> bool {
    if topo.count() != 4 {
        return false;
    }
    let path = topo.path(3);
    path.len == len && path.nodes == nodes
}

/// Whether the plain tree's nodes are found.
fn are_found(topo: &Topo) -> bool {
    topo.frames() == 65_536
        && topo.bridge(7) == Some(1)
        && topo.uids() == [0, 7].as_slice()
        && finds(topo, "e0", 3)
}

/// Whether its nodes are what they are, and its children are found.
fn are_said(topo: &Topo) -> bool {
    if topo.count() != 4 {
        return false;
    }
    let kinds = (topo.is_endpoint(3), topo.is_port(2), topo.forwards(0));
    let children = (topo.child(1, 0), topo.child(0, 1), topo.least_child(0));
    kinds == (true, true, false)
        && children == (Some(3), None, Some(2))
        && (topo.under(1, 3), topo.under(0, 3)) == (true, false)
}

#[test]
fn plain(rt: HostRuntime) {
    let topo = tree(&rt, PLAIN);
    assert!(rt; are_four(&topo, [0x382, 0x382, 0x382, 0x1b02], 0x8000_0000, 0));
    assert!(rt; is_path(&topo, 2, [1, 3, 0, 0, 0, 0]));
    assert!(rt; are_found(&topo) && are_said(&topo));
    drop(topo);
}

#[test]
fn other_spelling(rt: HostRuntime) {
    let topo = tree(&rt, INLINE);
    assert!(rt; are_four(&topo, [0x10, 0x220, 0x185, 0x302], 0, 0x1000_0000));
    assert!(rt; is_path(&topo, 4, [0, 1, 2, 3, 0, 0]));
    assert!(rt; topo.frames() == 2 && topo.bridge(4_294_967_295) == Some(0));
    drop(topo);
}

#[test]
fn no_nodes(rt: HostRuntime) {
    assert!(rt; tree(&rt, "bridge = []\n").count() == 0);
}

/// Whether the landings are below what forwards, and the decoding ports above.
fn are_passed(topo: &Topo) -> bool {
    if topo.count() != 4 {
        return false;
    }
    let landings = (topo.landing(0), topo.landing(1), topo.landing(2));
    let ports = (topo.decoding_port(0), topo.decoding_port(3));
    landings == (Some(0), None, Some(3)) && ports == (None, Some(Parent { node: 0, port: 1 }))
}

#[test]
fn passes_what_forwards(rt: HostRuntime) {
    let topo = tree(&rt, FORWARDING);
    assert!(rt; are_passed(&topo));
    drop(topo);
}

/// The plain tree's nodes, with this one changed.
fn changed(rt: &(impl Abort + AllocGlobal), row: &FirstFault) -> Vec<Node> {
    let topo = tree(rt, PLAIN);
    let mut nodes = Vec::new(rt.alloc());
    for i in 0..topo.count() {
        let mut node = *topo.node(i);
        if i == row.place {
            node.parent = row.parent;
            node.cap = row.cap;
            node.forwards = row.forwards;
        }
        nodes.push(node).expect(rt, "memory");
    }
    drop(topo);
    nodes
}

/// The place of a node, its fields as they are changed, and the first fault.
struct FirstFault {
    name: &'static str,
    place: u32,
    parent: Option<Parent>,
    cap: u32,
    forwards: bool,
    fault: TreeFault,
}

/// What no topology file says; the other faults stand in `worked/faults`.
const CHANGED: &[FirstFault] = rows! {
    FirstFault { name, place, parent, cap, forwards, fault };
    "a bridge under another node", 1, Some(Parent { node: 0, port: 1 }), 0x382, false, TreeFault::NoParent(1);
    "a bridge with the capability word of an endpoint", 0, None, 0x1b02, false, TreeFault::Caps(0);
    "an endpoint that forwards", 3, Some(Parent { node: 1, port: 0 }), 0x1b02, true, TreeFault::Caps(3);
};

#[test]
fn first_faults(rt: HostRuntime) {
    for row in CHANGED {
        let fault = Topo::new(rt.alloc(), changed(&rt, row), 65_536).err();
        row_passes(&rt, row.name, fault == Some(row.fault));
    }
}
