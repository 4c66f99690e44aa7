//! Where bytes go in any register image, accepted or not: the walk of a host address with its end, and all host addresses that come
//! to a device byte.
#![tactic(auto)]

mod hosts;
mod trace;
mod turns;
mod walking;

pub use cxl_model::{Miss, Step};
pub use hosts::{host_lists, hosts_of};
pub use trace::{EndByte, Outset, Trace, WalkEnd};
pub use walking::walk;
