//! Where the children of the nodes of a tree are found: at a port, and the one with the least number.

ghost use Rattle.std.specs.Prelude.{◌≡◌, ◌+◌, ◌<◌, ◌≤◌, ℕ, List, [], length, take, Some, None, IfOk, OnOk};
ghost use Rattle.cxl_enc.specs.Limits.{node_limit};
ghost use Rattle.cxl_topo.specs.declared.node.Node.{Node};
ghost use Rattle.cxl_topo.specs.declared.node.Parent.{Parent};
ghost use Rattle.cxl_topo.specs.Tree.{parent_of, child_of, least_child_of};
ghost use Rattle.cxl_topo.specs.inner.Tables.{ListsChildren};

use crate::enter::enter_first;
use crate::node::{Node, Parent};
use std::alloc::{AllocError, Global};
use std::collections::BTreeMap;

/// The children of nodes. Those at a node's first eight ports, as many as a decoder has entries, have a
/// place each, so that they are found without a search.
#[derive(Drop)]
pub(crate) struct Children {
    /// The child at each of the first eight ports, node by node.
    pub(crate) near: Vec<Option<u32>>,
    /// The children at further ports.
    pub(crate) far: BTreeMap<Parent, u32>,
    /// The child with the least number, node by node.
    pub(crate) least: Vec<Option<u32>>,
}

impl Children {
    /// No children, of so many nodes. Takes memory.
    pub(crate) fn new(alloc: Global, count: usize) -> Result<Children, AllocError>
        requires { count ≤ node_limit }
        ensures { IfOk result (ListsChildren count []) }
    {
        let near = vec![in alloc; None; 8 * count]?;
        let least = vec![in alloc; None; count]?;
        Ok(Children {
            near,
            far: BTreeMap::new(alloc),
            least,
        })
    }

    /// The child at a port.
    pub(crate) fn at(&self, place: &Parent) -> Option<u32>
        ensures { (count : ℕ) (nodes : List Node) → ListsChildren count nodes self.now → place.now.node < count → result ≡ child_of nodes place.now.node place.now.port }
    {
        if place.port < 8 {
            *self
                .near
                .get(8 * place.node as usize + usize::from(place.port))?
        } else {
            self.far.get(place).copied()
        }
    }

    /// The child of a node that has the least number.
    pub(crate) fn least(&self, node: u32) -> Option<u32>
        ensures child { (count : ℕ) (nodes : List Node) → ListsChildren count nodes self.now → node < count → result ≡ least_child_of nodes node }
        ensures beyond { (count : ℕ) (nodes : List Node) → ListsChildren count nodes self.now → count ≤ node → result ≡ None }
    {
        *self.least.get(node as usize)?
    }

    /// Enters node `i` below its parent, which it has at a port of its own.
    pub(crate) fn enter(&mut self, nodes: &[Node], i: u32) -> Result<(), AllocError>
        requires below { i < length nodes.now }
        requires within { (parent : Parent) → parent_of nodes.now i ≡ Some parent → parent.node < length nodes.now }
        requires free { (parent : Parent) → parent_of nodes.now i ≡ Some parent → child_of (take i nodes.now) parent.node parent.port ≡ None }
        requires listed { ListsChildren (length nodes.now) (take i nodes.now) self.old }
        ensures { OnOk result (ListsChildren (length nodes.now) (take (i + 1) nodes.now) self.new) }
    {
        let node = &nodes[i as usize];
        let Some(parent) = node.parent else {
            return Ok(());
        };
        let above = parent.node as usize;
        self.least[above] = Some(self.least[above].unwrap_or(i));
        if parent.port < 8 {
            self.near[8 * above + usize::from(parent.port)] = Some(i);
            Ok(())
        } else {
            enter_first(&mut self.far, parent, i)
        }
    }
}
