//! Which nodes are the landing of a bridge.

ghost use Rattle.std.specs.Prelude.{◌≡◌, ℕ, ◌<◌, ◌==◌, false, length, IfOk, IfSome};
ghost use Rattle.std.specs.Option.{option_map_or};
ghost use Rattle.cxl_check.specs.inner.Firsts.{AreLandings};
ghost use Rattle.cxl_check.specs.inner.Landings.{lands_at};

use cxl_topo::{NodeKind, Topo};
use std::alloc::{AllocError, Global};

/// Whether each node is the landing of a bridge. Takes memory.
pub fn landings_of_bridges(alloc: Global, topo: &Topo) -> Result<Vec<bool>, AllocError>
    ensures { IfOk result (λ landings. AreLandings topo.now.nodes landings.items) }
{
    let mut landings = vec![in alloc; false; topo.count() as usize]?;
    for bridge in 0..topo.count() {
        if let Some(landing) = bridge_landing(topo, bridge) {
            landings[landing as usize] = true;
        }
    }
    Ok(landings)
}

/// The landing of a node that is a bridge.
fn bridge_landing(topo: &Topo, node: u32) -> Option<u32>
    requires { node < length topo.now.nodes }
    ensures lands { (n : ℕ) → lands_at topo.now.nodes n node ≡ option_map_or (λ m. m == n) result false }
    ensures inside { IfSome result (λ m. m < length topo.now.nodes) }
{
    match topo.node(node).kind {
        NodeKind::Bridge(_) => topo.landing(node),
        NodeKind::Switch | NodeKind::Endpoint(_) => None,
    }
}
