//! Where an address leads in a register image.
#![tactic(auto)]

mod above;
mod carrying;
mod decoding;
mod downward;
mod gathering;
mod kept;
mod marking;
mod moves;
mod own;
mod owned;
mod route;
mod spans;
mod steps;
mod target;
mod upward;
mod way;

pub use carrying::images_carry_their_regions;
pub use cxl_model::{Miss, Step};
pub use downward::down;
pub use gathering::own_of_each;
pub use kept::{Kept, kept_routes_stay};
pub use own::Own;
pub use route::Route;
pub use upward::{HostByte, up};
