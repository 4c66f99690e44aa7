//! Whether a register image is accepted, with its regions, and else its first breach, or all places that break the same rule.
#![tactic(auto)]

mod above;
mod blocks;
mod caps;
mod checking;
mod children;
mod decoder_facts;
mod decoders;
mod facts;
mod fault;
mod firsts;
mod kind;
mod known;
mod landings;
mod least;
mod places;
mod ranges;
mod reach;
mod regions;
mod slots;
mod tables;
mod targets;
mod ways;
mod window;

pub use checking::check;
pub use cxl_model::{Found, Place};
pub use fault::{Breach, CheckFault};
pub use firsts::{RangeKey, first_endpoints, first_of};
pub use landings::landings_of_bridges;
pub use places::breaches;
