//! Device memory in blocks of 256 bytes: the traits `Media` and `Roll`, a plain implementation, and the shipped one
//! over a frame pool.
#![tactic(auto)]

mod bytes;
mod cell;
mod cell_list;
mod index;
mod link;
mod map_media;
mod media;
mod numbers;
mod pool;
mod probe;
mod roll;
mod sim_media;
mod zones;

pub use map_media::MapMedia;
pub use media::{Full, Media};
pub use pool::{Frame, Pool};
pub use roll::{At, Roll};
pub use sim_media::SimMedia;
