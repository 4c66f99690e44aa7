//! A node of the tree: a bridge, a switch or an endpoint.

use cxl_enc::Name;

/// A node of the tree: a host bridge, a switch or an endpoint.
#[derive(Clone, Copy, PartialEq, Eq)]
pub struct Node {
    pub name: Name,
    pub kind: NodeKind,
    /// The bridge or switch above, and the port there. A bridge has none.
    pub parent: Option<Parent>,
    /// The capability word of the node's decoder block.
    pub cap: u32,
    /// Whether the node has no decoders of its own and passes every address on to its only child. Its
    /// block is then a placeholder. (This project's rule for a bridge with a single root port and a
    /// switch with a single downstream port.)
    pub forwards: bool,
}

impl Node {
    ghost use Rattle.std.specs.Prelude.{◌≡◌};
    ghost use Rattle.cxl_topo.specs.Kinds.{is_bridge, is_endpoint};

    /// Whether it is a host bridge.
    pub fn is_bridge(&self) -> bool
        ensures { result ≡ is_bridge self.now.kind }
    {
        matches!(self.kind, NodeKind::Bridge(_))
    }

    /// Whether it is an endpoint; a node that is none is a port.
    pub fn is_endpoint(&self) -> bool
        ensures { result ≡ is_endpoint self.now.kind }
    {
        matches!(self.kind, NodeKind::Endpoint(_))
    }
}

/// What a node is.
#[derive(Clone, Copy, PartialEq, Eq)]
pub enum NodeKind {
    /// A host bridge with the UID that its CHBS structure gives.
    Bridge(u32),
    Switch,
    Endpoint(Capacity),
}

/// The bytes of volatile and of persistent memory that an endpoint has. Volatile memory comes first.
#[derive(Clone, Copy, PartialEq, Eq)]
pub struct Capacity {
    pub ram: u64,
    pub pmem: u64,
}

/// A port of a node, by the node's number.
#[derive(Clone, Copy, PartialEq, Eq, PartialOrd, Ord)]
pub struct Parent {
    pub node: u32,
    pub port: u8,
}
