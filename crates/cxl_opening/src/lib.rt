//! What a session opens with on a register image: the image's regions with their names and routes, or why it cannot open, and
//! the endpoints that are let decode.
#![tactic(auto)]

mod endpoints;
mod keeping;
mod regions;

pub use cxl_machine::OpenFault;
pub use endpoints::{enable_endpoints, enabled, powered_on};
pub use keeping::{auto_names, routes_of};
pub use regions::{few_to_open, regions_to_open};
