//! The tree of host bridges, switches and endpoints: which trees are legal, and how to find a node in
//! one.
#![tactic(auto)]

mod children;
mod device;
mod enter;
mod fault;
mod judge;
mod laws;
mod node;
mod path;
mod paths;
mod tables;
mod topo;

pub use cxl_enc::{Caps, Name, cap_word, legal_cap};
pub use device::capacity_at;
pub use enter::enter_first;
pub use fault::TreeFault;
pub use laws::tree_laws;
pub use node::{Capacity, Node, NodeKind, Parent};
pub use path::Path;
pub use tables::NameKey;
pub use topo::Topo;
