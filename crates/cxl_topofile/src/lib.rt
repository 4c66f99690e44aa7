//! A topology as a TOML file: the bridges, switches and endpoints that a tester describes.
#![tactic(auto)]

mod attach;
mod draft;
mod fault;
mod fields;
mod group;
mod key;
mod laws;
mod read;
mod sections;
mod stated;
mod value;

pub use fault::{Section, TableKey, TopoFault};
pub use key::Key;
pub use laws::one_topology_reading;
pub use read::read_topo;
