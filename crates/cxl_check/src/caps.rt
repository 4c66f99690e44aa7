//! K1: the blocks are those of the nodes.

ghost use Rattle.std.specs.Prelude.{◌≡◌, ℕ, ◌<◌, ◌≤◌, ◌==◌, not, List, [], length, slice_get, IfSome, IfNone, option_map};
ghost use Rattle.std.specs.Option.{option_eq};
ghost use Rattle.cxl_model.specs.Hosts.{as_system};
ghost use Rattle.cxl_check.specs.Spots.{Keeps, IsFirstSpot};

use cxl_model::Host;

/// The node at which K1 is broken first: node 0 where the number of blocks is another, else the first node whose block
/// has another capability word.
pub(crate) fn caps_breach(host: &Host) -> Option<u32>
    ensures none { IfNone result (Keeps (as_system host.now) 1) }
    ensures first { IfSome result (λ node. IsFirstSpot (as_system host.now) 1 node 0) }
{
    if host.image.count() != host.topo.count() {
        return Some(0);
    }
    for node in 0..host.topo.count() {
        if host.image.block(node).cap() != host.topo.node(node).cap {
            return Some(node);
        }
    }
    None
}
