//! The bytes of a node's device.

ghost use Rattle.std.specs.Prelude.{◌≡◌, ◌+◌, ◌<◌, ◌≤◌, length};
ghost use Rattle.cxl_enc.specs.Limits.{address_limit};
ghost use Rattle.cxl_topo.specs.Tree.{device_ram, device_pmem};

use crate::node::{Capacity, NodeKind};
use crate::topo::Topo;

/// The bytes of a node's device; a port has none.
pub fn capacity_at(topo: &Topo, node: u32) -> Capacity
    requires { node < length topo.now.nodes }
    ensures ram { result.ram ≡ device_ram topo.now.nodes node }
    ensures pmem { result.pmem ≡ device_pmem topo.now.nodes node }
    ensures small { result.ram + result.pmem ≤ address_limit }
{
    // A legal tree has legal capacities.
    let _count = topo.count();
    match topo.node(node).kind {
        NodeKind::Endpoint(capacity) => capacity,
        NodeKind::Bridge(_) | NodeKind::Switch => Capacity { ram: 0, pmem: 0 },
    }
}
