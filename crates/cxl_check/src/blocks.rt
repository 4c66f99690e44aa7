//! K2 to K8: each block by itself.

ghost use Rattle.std.specs.Prelude.{◌<◌, length};
ghost use Rattle.cxl_image.specs.Images.{HasCapsOf};
ghost use Rattle.cxl_model.specs.Hosts.{as_system};
ghost use Rattle.cxl_model.specs.Accepted.{breaks_block};
ghost use Rattle.cxl_check.specs.inner.Found.{IsFoundOfNode, IsFoundAmong};

use crate::fault::Breach;
use crate::least::earlier_among_nodes;
use cxl_model::Host;
use cxl_span::{BlockBreach, block_breach};
use cxl_topo::capacity_at;

/// The first breach of K2 to K8.
pub(crate) fn blocks_breach(host: &Host) -> Option<Breach>
    requires caps { HasCapsOf host.now.image.now host.now.topo.now.nodes }
    ensures { IsFoundAmong (breaks_block (as_system host.now)) (length host.now.topo.now.nodes) result }
{
    let mut first = None;
    for node in 0..host.topo.count() {
        let found = node_breach(host, node);
        first = earlier_among_nodes(first, node, found);
    }
    first
}

/// The first breach of K2 to K8 in the block of one node.
fn node_breach(host: &Host, node: u32) -> Option<BlockBreach>
    requires caps { HasCapsOf host.now.image.now host.now.topo.now.nodes }
    requires here { node < length host.now.topo.now.nodes }
    ensures { IsFoundOfNode (breaks_block (as_system host.now)) node result }
{
    let capacity = capacity_at(host.topo, node);
    block_breach(host.image.block(node), capacity.ram, capacity.pmem)
}
