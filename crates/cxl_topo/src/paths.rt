//! Ways in a tree: down to a node, to the decoding parent above it, and to its landing.

ghost use Rattle.std.specs.Prelude.{◌≡◌, ◌+◌, ◌-◌, ◌*◌, ◌<◌, ◌≤◌, length, take, drop, replicate, false, IfSome};
ghost use Rattle.cxl_enc.specs.Limits.{node_limit};
ghost use Rattle.cxl_topo.specs.Tree.{path_of, decoding_port_of, landing_of, forwards_at};
ghost use Rattle.cxl_topo.specs.inner.Tables.{ListsChildren};
ghost use Rattle.cxl_topo.specs.Faults.{NoneBefore, IsTree};

use crate::children::Children;
use crate::node::{Node, Parent};
use crate::path::Path;

/// The way down to node `i`, where nothing is wrong with it and the earlier nodes.
pub(crate) fn path_to(nodes: &[Node], i: u32) -> Path
    requires below { i < length nodes.now }
    requires few { length nodes.now ≤ node_limit }
    requires sound { NoneBefore nodes.now (8 * i + 9) }
    ensures len { result.len ≡ length (path_of nodes.now i) }
    ensures path { take result.len result.nodes ≡ path_of nodes.now i }
    ensures zeros { drop result.len result.nodes ≡ replicate (6 - result.len) 0 }
{
    let mut room = [i, 0, 0, 0, 0, 0];
    let mut len = 1;
    let mut at = nodes[i as usize].parent;
    while let Some(parent) = at {
        room = [parent.node, room[0], room[1], room[2], room[3], room[4]];
        len += 1;
        at = nodes[parent.node as usize].parent;
    }
    Path { len, nodes: room }
}

/// The first port above node `i` whose node does not forward.
pub(crate) fn decoding_port(nodes: &[Node], i: u32) -> Option<Parent>
    requires below { i < length nodes.now }
    requires tree { IsTree nodes.now }
    ensures port { result ≡ decoding_port_of nodes.now i }
    ensures earlier { IfSome result (λ parent. parent.node < i) }
    ensures decodes { IfSome result (λ parent. forwards_at nodes.now parent.node ≡ false) }
{
    let mut at = nodes[i as usize].parent;
    while let Some(parent) = at {
        let above = &nodes[parent.node as usize];
        if !above.forwards {
            return Some(parent);
        }
        at = above.parent;
    }
    None
}

/// The first node at or below node `i` that does not forward.
pub(crate) fn landing(nodes: &[Node], children: &Children, i: u32) -> Option<u32>
    requires below { i < length nodes.now }
    requires tree { IsTree nodes.now }
    requires listed { ListsChildren (length nodes.now) nodes.now children.now }
    ensures { result ≡ landing_of nodes.now i }
{
    let mut at = i;
    while nodes[at as usize].forwards {
        at = children.least(at)?;
    }
    Some(at)
}
