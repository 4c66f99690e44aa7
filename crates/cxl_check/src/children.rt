//! The children of nodes at their first eight ports, which are as many as a port's decoder has entries.

ghost use Rattle.std.specs.Prelude.{◌≡◌, ◌+◌, ◌<◌, length, IfOk};
ghost use Rattle.cxl_topo.specs.Tree.{child_of};
ghost use Rattle.cxl_check.specs.inner.Children.{AreAllChildren, AreEntered};

use cxl_topo::{Topo, tree_laws};
use std::alloc::{AllocError, Global};

/// The child of each node at each of its first eight ports, node by node. Takes memory.
pub(crate) fn all_children(alloc: Global, topo: &Topo) -> Result<Vec<Option<u32>>, AllocError>
    ensures { IfOk result (λ children. AreAllChildren topo.now.nodes children.items) }
{
    tree_laws();
    let count = 8 * topo.count();
    let mut children = vec![in alloc; None; count as usize]?;
    for node in 0..topo.count() {
        enter_child(topo, &mut children, node);
    }
    Ok(children)
}

/// Enters a node as the child of its parent, where it stands at one of the first eight ports.
fn enter_child(topo: &Topo, children: &mut Vec<Option<u32>>, node: u32)
    requires here { node < length topo.now.nodes }
    requires entered { AreEntered topo.now.nodes node children.old.items }
    ensures { AreEntered topo.now.nodes (node + 1) children.new.items }
{
    tree_laws();
    let _count = topo.count();
    let Some(parent) = topo.node(node).parent else {
        return;
    };
    if parent.port >= 8 {
        return;
    }
    children[8 * parent.node as usize + usize::from(parent.port)] = Some(node);
}

/// The child of a node at a port, from the table of them.
pub(crate) fn child_at(topo: &Topo, children: &[Option<u32>], node: u32, port: u8) -> Option<u32>
    requires here { node < length topo.now.nodes }
    requires children { AreAllChildren topo.now.nodes children.now }
    ensures { result ≡ child_of topo.now.nodes node port }
{
    let _count = topo.count();
    if port < 8 {
        children[8 * node as usize + usize::from(port)]
    } else {
        topo.child(node, port)
    }
}
