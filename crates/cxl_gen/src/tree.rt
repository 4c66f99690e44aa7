//! The topology of a generated system.

ghost use Rattle.std.specs.Prelude.{◌≡◌, ◌<◌, ◌≤◌, ◌++◌, map, IfOk, OnOk};
ghost use Rattle.std.specs.List.{range_with_len};
ghost use Rattle.cxl_gen.specs.Made.{made_bridge, made_endpoint, made_tree};

use crate::names::made_name;
use cxl_enc::{Caps, Memory, cap_word};
use cxl_topo::{Capacity, Node, NodeKind, Parent, Topo};
use std::alloc::Global;

/// The frames of a topology that states none.
const FRAMES: u32 = 65_536;

/// The topology of a number: two bridges and four endpoints for each window of its table. (This project's rule.) Takes memory.
pub fn made_tree(alloc: Global, n: u32) -> Result<Topo, Memory>
    requires { n ≤ 32 }
    ensures { IfOk result (λ topo. topo ≡ made_tree n) }
{
    let mut nodes = Vec::with_capacity(alloc, 6 * n as usize)?;
    add_bridges(&mut nodes, alloc, 2 * n)?;
    add_endpoints(&mut nodes, alloc, 4 * n)?;
    match Topo::new(alloc, nodes, FRAMES) {
        Ok(topo) => Ok(topo),
        Err(_) => Err(Memory),
    }
}

fn add_bridges(nodes: &mut Vec<Node>, alloc: Global, count: u32) -> Result<(), Memory>
    requires { count ≤ 64 }
    ensures { OnOk result (nodes.new.items ≡ nodes.old.items ++ map made_bridge (range_with_len 0 count)) }
{
    for i in 0..count {
        nodes.push(made_bridge(alloc, i)?)?;
    }
    Ok(())
}

fn made_bridge(alloc: Global, i: u32) -> Result<Node, Memory>
    requires { i < 64 }
    ensures { IfOk result (λ node. node ≡ made_bridge i) }
{
    let caps = Caps {
        decoders: 4,
        targets: 8,
        low: true,
        high: true,
        ways3: false,
        ways16: false,
    };
    Ok(Node {
        name: made_name(alloc, b"hb", i)?,
        kind: NodeKind::Bridge(i),
        parent: None,
        cap: cap_word(&caps),
        forwards: false,
    })
}

fn add_endpoints(nodes: &mut Vec<Node>, alloc: Global, count: u32) -> Result<(), Memory>
    requires { count ≤ 128 }
    ensures { OnOk result (nodes.new.items ≡ nodes.old.items ++ map made_endpoint (range_with_len 0 count)) }
{
    for i in 0..count {
        nodes.push(made_endpoint(alloc, i)?)?;
    }
    Ok(())
}

fn made_endpoint(alloc: Global, i: u32) -> Result<Node, Memory>
    requires { i < 128 }
    ensures { IfOk result (λ node. node ≡ made_endpoint i) }
{
    let caps = Caps {
        decoders: 4,
        targets: 0,
        low: true,
        high: true,
        ways3: true,
        ways16: true,
    };
    let capacity = Capacity {
        ram: 0x1_0000_0000,
        pmem: 0,
    };
    let parent = Parent {
        node: i / 2,
        port: (i % 2) as u8,
    };
    Ok(Node {
        name: made_name(alloc, b"e", i)?,
        kind: NodeKind::Endpoint(capacity),
        parent: Some(parent),
        cap: cap_word(&caps),
        forwards: false,
    })
}
