//! On which device bytes a range of a region's host bytes lies, and how many of them on each slot.
#![tactic(auto)]

mod counting;
mod cutting;
mod laws;
mod woven;

pub use counting::spread;
pub use cutting::extents;
pub use cxl_model::{Extent, Found, Memory};
pub use laws::extents_carry_their_bytes;
