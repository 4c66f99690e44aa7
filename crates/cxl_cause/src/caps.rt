//! K1: why the blocks are not those of the nodes.

ghost use Rattle.std.specs.Prelude.{◌≡◌, ◌==◌, if◌then◌else◌, length, Some, None};
ghost use Rattle.cxl_model.specs.Hosts.{as_system};
ghost use Rattle.cxl_cause.specs.BlockCauses.{caps_cause};

use crate::cause::Cause;
use cxl_model::Host;

/// The cause of K1 at a node and a decoder: another number of blocks is told of the first node, and each cause of decoder 0.
pub(crate) fn caps_cause(host: &Host, node: u32, i: u8) -> Option<Cause>
    ensures { result ≡ caps_cause (as_system host.now) node i }
{
    if i != 0 {
        return None;
    }
    if host.image.count() != host.topo.count() {
        return count_cause(host, node);
    }
    if node >= host.topo.count() {
        return None;
    }
    let found = host.image.block(node).cap();
    let wanted = host.topo.node(node).cap;
    if found == wanted {
        return None;
    }
    Some(Cause::Capability { found, wanted })
}

/// That of another number of blocks.
fn count_cause(host: &Host, node: u32) -> Option<Cause>
    ensures { result ≡ (if node == 0 then Some (Cause.BlockCount (length host.now.image.now) (length host.now.topo.now.nodes)) else None) }
{
    if node != 0 {
        return None;
    }
    Some(Cause::BlockCount {
        found: host.image.count(),
        wanted: host.topo.count(),
    })
}
