//! Why nodes are no legal tree.

ghost use Rattle.std.specs.Prelude.{◌≡◌};
ghost use Rattle.cxl_topo.specs.declared.fault.TreeFault.TheVariants.{Memory};

use std::alloc::{AllocError, AllocFailed};
use std::fmt;
use thiserror::Error;

/// Why nodes are no legal tree: the first fault of the least node, in the order of these variants. The
/// number is that node's.
#[derive(Clone, Copy, PartialEq, Eq, Error)]
pub enum TreeFault {
    /// There are more than 1,024 nodes or more than 64 bridges.
    #[error("there are more than 1024 nodes or more than 64 bridges")]
    TooMany,
    /// The node is a bridge and has a parent, or it is another node and has none, or its parent is not
    /// an earlier bridge or switch.
    #[error("node {0} does not stand under an earlier bridge or switch, or is a bridge under another node")]
    NoParent(u32),
    /// An earlier node has the same parent and port.
    #[error("an earlier node stands at the port of node {0}")]
    PortTaken(u32),
    /// The parent forwards, and has an earlier child.
    #[error("the parent of node {0} forwards, and has an earlier child")]
    Forks(u32),
    /// An earlier node has the name.
    #[error("an earlier node has the name of node {0}")]
    NameTaken(u32),
    /// The node is a bridge, and an earlier bridge has its UID.
    #[error("an earlier bridge has the UID of node {0}")]
    UidTaken(u32),
    /// The node is a switch and has four switches above it.
    #[error("node {0} is a switch below four others")]
    Depth(u32),
    /// The capability word is none that this kind of node may have, or the node forwards and the word is
    /// not that of a placeholder, or an endpoint forwards.
    #[error("node {0} may not have its capability word, or is an endpoint that forwards")]
    Caps(u32),
    /// A capacity is no multiple of 256 MiB, or the sum of both exceeds 2^52.
    #[error("a capacity of node {0} is no multiple of 256 MiB, or both together exceed 2^52 bytes")]
    Capacity(u32),
    #[error("out of memory")]
    Memory,
}

// The debug text of a fault is its message, since an error needs one and nothing else asks for it.
impl fmt::Debug for TreeFault {
    fn fmt<W: fmt::Write>(&self, f: &mut fmt::Formatter<W>) -> fmt::Result {
        fmt::Display::fmt(self, f)
    }
}

impl From<AllocError> for TreeFault {
    ghost from_gives = { λ _ e. e ≡ Memory };

    fn from(_e: AllocError) -> TreeFault {
        TreeFault::Memory
    }
}

impl<T: Drop> From<AllocFailed<T>> for TreeFault {
    ghost from_gives = { λ _ e. e ≡ Memory };

    fn from(_e: AllocFailed<T>) -> TreeFault {
        TreeFault::Memory
    }
}
