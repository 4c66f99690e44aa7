//! The live regions of a session, found by a host address.
#![tactic(auto)]

mod ordering;
mod regions;

pub use regions::LiveRegions;
