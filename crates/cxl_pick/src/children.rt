//! The children of each port, by rising port.

ghost use Rattle.std.specs.Prelude.{◌≡◌, ℕ, ◌<◌, ◌≤◌, length, slice_index_or, Some, IfOk};
ghost use Rattle.cxl_topo.specs.declared.node.Parent.{Parent};
ghost use Rattle.cxl_topo.specs.Tree.{parent_of};
ghost use Rattle.cxl_pick.specs.inner.Gifts.{AreHighest, AreChildrenOf};

use cxl_topo::{Parent, Topo, tree_laws};
use std::alloc::{AllocError, Global};

/// For each node a port above which no child of it stands: the highest with one, or 0. Takes memory.
pub(crate) fn highest_ports(alloc: Global, topo: &Topo) -> Result<Vec<u8>, AllocError>
    ensures count { IfOk result (λ highest. length highest.items ≡ length topo.now.nodes) }
    ensures highest { IfOk result (λ highest. AreHighest topo.now.nodes highest.items) }
{
    tree_laws();
    let mut highest = vec![in alloc; 0; topo.count() as usize]?;
    for node in 0..topo.count() {
        raise_parent(&mut highest, topo, node);
    }
    Ok(highest)
}

/// Raises the highest port of a node's parent to that of the node, where it is lower.
fn raise_parent(highest: &mut Vec<u8>, topo: &Topo, node: u32)
    requires { node < length topo.now.nodes }
    ensures count { length highest.new.items ≡ length highest.old.items }
    ensures kept { (n : ℕ) → n < length highest.old.items
        → slice_index_or highest.old.items n 0 ≤ slice_index_or highest.new.items n 0 }
    ensures raised { (parent : Parent) → parent_of topo.now.nodes node ≡ Some parent
        → parent.node < length highest.old.items → parent.port ≤ slice_index_or highest.new.items parent.node 0 }
{
    if let Some(parent) = topo.node(node).parent {
        raise(highest, &parent);
    }
}

/// Raises the highest port of a node to this one, where it is lower.
fn raise(highest: &mut Vec<u8>, place: &Parent)
    ensures count { length highest.new.items ≡ length highest.old.items }
    ensures kept { (n : ℕ) → n < length highest.old.items
        → slice_index_or highest.old.items n 0 ≤ slice_index_or highest.new.items n 0 }
    ensures raised { place.now.node < length highest.old.items
        → place.now.port ≤ slice_index_or highest.new.items place.now.node 0 }
{
    let node = place.node as usize;
    if node < highest.len() && highest[node] < place.port {
        highest[node] = place.port;
    }
}

/// The children of a node, by rising port, of which none is above `highest`. Takes memory.
pub(crate) fn children_of(
    alloc: Global,
    topo: &Topo,
    node: u32,
    highest: u8,
) -> Result<Vec<u32>, AllocError>
    requires here { node < length topo.now.nodes }
    requires highest { (c : ℕ) (parent : Parent) → parent_of topo.now.nodes c ≡ Some parent
        → parent.node ≡ node → parent.port ≤ highest }
    ensures { IfOk result (λ own. AreChildrenOf topo.now.nodes node own.items) }
{
    tree_laws();
    let _count = topo.count();
    let mut own = Vec::new(alloc);
    for port in 0..u32::from(highest) + 1 {
        if let Some(child) = topo.child(node, port as u8) {
            own.push(child)?;
        }
    }
    Ok(own)
}
