//! The tree of a host, and what is asked of it.

ghost use Rattle.std.specs.Prelude.{◌≡◌, ◌≢◌, ◌-◌, ◌≤◌, ◌<◌, ◌↔◌, ℕ, length, take, drop, replicate, slice_get, None, Some, if◌then◌else◌, option_and_then, IsTrue, false, IfSome, IsSomeAnd, IfOk, IfErr, Contains};
ghost use Rattle.cxl_topo.specs.Tree.{Tree, is_endpoint_at, is_port_at, forwards_at, child_of, least_child_of, name_at, uid_at, node_named, endpoint_named, bridge_with, bridge_uids, path_of, IsPathTo, decoding_port_of, landing_of};
ghost use Rattle.cxl_topo.specs.Faults.{IsTree, IsFirstTreeFault};
ghost use Rattle.cxl_topo.specs.Frames.{AreFrames};
ghost use Rattle.cxl_topo.specs.Laws.{StandsAt, StandsBelow};

use crate::fault::TreeFault;
use crate::judge::{are_too_many, tables_or_fault};
use crate::node::{Node, Parent};
use crate::path::Path;
use crate::paths::{decoding_port, landing, path_to};
use crate::tables::{NameKey, Tables};
use cxl_enc::Name;
use std::alloc::Global;
use std::marker::Model;

/// A legal tree of nodes, and the frames of 256 bytes that its devices share. Contracts see it as a
/// `Tree`: the list of its nodes by number, and the frames. Numbers of nodes count from 0.
#[derive(Drop)]
pub struct Topo {
    nodes: Vec<Node>,
    frames: u32,
    tables: Tables,
}

impl Model for Topo {
    ghost use Rattle.cxl_topo.specs.Tree.{Tree};
    ghost use Rattle.cxl_topo.specs.inner.Kept.{IsKeptTree};

    ghost Value = { Tree };

    ghost view = { λ topo. record { nodes = topo.nodes.items; frames = topo.frames } };

    ghost invariant = { λ topo. IsKeptTree topo.nodes.items topo.frames topo.tables };
}

impl Topo {
    /// The tree of these nodes, each numbered by its place, or why they are none. (Which trees are legal
    /// is this project's rule.) Takes memory.
    pub fn new(alloc: Global, nodes: Vec<Node>, frames: u32) -> Result<Topo, TreeFault>
        requires { AreFrames frames }
        ensures value { IfOk result (λ topo. topo ≡ record { nodes = nodes.items; frames = frames }) }

        // Ok comes for legal trees, and for them nothing else but want of memory.
        ensures legal { IfOk result (λ _. IsTree nodes.items) }
        ensures only { IsTree nodes.items → IfErr result (λ fault. fault ≡ TreeFault.Memory) }
        // Any other refusal is the first fault, by node and then in the order of the faults.
        ensures fault { IfErr result (λ fault. fault ≢ TreeFault.Memory → IsFirstTreeFault nodes.items fault) }
    {
        if are_too_many(&nodes) {
            return Err(TreeFault::TooMany);
        }
        let tables = tables_or_fault(alloc, &nodes)?;
        Ok(Topo {
            nodes,
            frames,
            tables,
        })
    }

    /// How many nodes there are.
    pub fn count(&self) -> u32
        ensures count { result ≡ length self.now.nodes }
        ensures tree { IsTree self.now.nodes }
    {
        self.nodes.len() as u32
    }

    /// How many frames of 256 bytes the devices share.
    pub fn frames(&self) -> u32
        ensures frames { result ≡ self.now.frames }
        ensures range { AreFrames result }
    {
        self.frames
    }

    /// Node `i`.
    pub fn node(&self, i: u32) -> &Node
        requires { i < length self.now.nodes }
        ensures { slice_get self.now.nodes i ≡ Some result.now }
    {
        &self.nodes[i as usize]
    }

    /// Whether a node is an endpoint.
    pub fn is_endpoint(&self, node: u32) -> bool
        requires { node < length self.now.nodes }
        ensures { result ≡ is_endpoint_at self.now.nodes node }
    {
        self.node(node).is_endpoint()
    }

    /// Whether a node is a port: a bridge or a switch.
    pub fn is_port(&self, node: u32) -> bool
        requires { node < length self.now.nodes }
        ensures { result ≡ is_port_at self.now.nodes node }
    {
        !self.node(node).is_endpoint()
    }

    /// Whether a node forwards.
    pub fn forwards(&self, node: u32) -> bool
        requires { node < length self.now.nodes }
        ensures { result ≡ forwards_at self.now.nodes node }
    {
        self.node(node).forwards
    }

    /// The child of a node at a port, `None` exactly where there is none.
    pub fn child(&self, node: u32, port: u8) -> Option<u32>
        requires { node < length self.now.nodes }
        ensures child { result ≡ child_of self.now.nodes node port }
        ensures stands { (c : ℕ) → (result ≡ Some c) ↔ StandsAt self.now.nodes node port c }
    {
        let place = Parent { node, port };
        self.tables.children.at(&place)
    }

    /// The child of a node that has the least number: the only child of one that forwards.
    pub fn least_child(&self, node: u32) -> Option<u32>
        ensures child { result ≡ least_child_of self.now.nodes node }
        ensures below { IfSome result (λ c. StandsBelow self.now.nodes node c) }
        ensures least { (c : ℕ) → StandsBelow self.now.nodes node c → IsSomeAnd result (λ least. least ≤ c) }
    {
        self.tables.children.least(node)
    }

    /// The node with a name.
    pub fn find(&self, name: &Name) -> Option<u32>
        ensures found { result ≡ node_named self.now.nodes name.now }
        ensures named { (i : ℕ) → (result ≡ Some i) ↔ (name_at self.now.nodes i ≡ Some name.now) }
    {
        self.tables.names.get(&NameKey::of(name)).copied()
    }

    /// The endpoint with a name.
    pub fn endpoint(&self, name: &Name) -> Option<u32>
        ensures endpoint { result ≡ endpoint_named self.now.nodes name.now }
        // No two nodes have one name: it is the node of this name, where that is an endpoint.
        ensures node { result ≡ option_and_then (λ n. if is_endpoint_at self.now.nodes n then Some n else None)
            (node_named self.now.nodes name.now) }
    {
        let node = self.find(name)?;
        if self.is_endpoint(node) {
            Some(node)
        } else {
            None
        }
    }

    /// The bridge with a UID.
    pub fn bridge(&self, uid: u32) -> Option<u32>
        ensures bridge { result ≡ bridge_with self.now.nodes uid }
        ensures owns { (i : ℕ) → (result ≡ Some i) ↔ (uid_at self.now.nodes i ≡ Some uid) }
    {
        self.tables.bridges.get(&uid).copied()
    }

    /// The UIDs of the bridges, in node order. They are kept, so this takes no time.
    pub fn uids(&self) -> &[u32]
        ensures { result.now ≡ bridge_uids self.now.nodes }
    {
        &self.tables.uids
    }

    /// The nodes from its bridge down to a node, six at the most. The places past them are 0.
    pub fn path(&self, ep: u32) -> Path
        requires { ep < length self.now.nodes }
        ensures len { result.len ≡ length (path_of self.now.nodes ep) }
        ensures path { take result.len result.nodes ≡ path_of self.now.nodes ep }
        ensures zeros { drop result.len result.nodes ≡ replicate (6 - result.len) 0 }
        ensures leads { IsPathTo self.now.nodes ep (path_of self.now.nodes ep) }
        ensures few { length (path_of self.now.nodes ep) ≤ 6 }
    {
        path_to(&self.nodes, ep)
    }

    /// Whether a node stands on the path of another, or is that one.
    pub fn under(&self, node: u32, ep: u32) -> bool
        requires node { node < length self.now.nodes }
        requires ep { ep < length self.now.nodes }
        ensures { IsTrue result ↔ Contains (path_of self.now.nodes ep) node }
    {
        let path = path_to(&self.nodes, ep);
        path.nodes[..path.len as usize].contains(&node)
    }

    /// The port through which addresses come to a node from its decoding parent, which is the nearest node
    /// above that does not forward: that parent, and the port there at which the node's path leaves it.
    /// `None` where all nodes above forward or there is none. At most five steps up.
    pub fn decoding_port(&self, node: u32) -> Option<Parent>
        requires { node < length self.now.nodes }
        ensures port { result ≡ decoding_port_of self.now.nodes node }
        ensures earlier { IfSome result (λ parent. parent.node < node) }
        ensures decodes { IfSome result (λ parent. forwards_at self.now.nodes parent.node ≡ false) }
    {
        decoding_port(&self.nodes, node)
    }

    /// Where an address that comes to a node is first decoded: the node itself where it does not
    /// forward, else the landing of its only child. `None` where there is no such child. At most five steps
    /// down, each a look-up of a child.
    pub fn landing(&self, node: u32) -> Option<u32>
        requires { node < length self.now.nodes }
        ensures { result ≡ landing_of self.now.nodes node }
    {
        landing(&self.nodes, &self.tables.children, node)
    }
}
