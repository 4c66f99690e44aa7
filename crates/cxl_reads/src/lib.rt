//! What the files of a host hold, told as lines over their bytes: the decoders of any image, the places that break its first broken
//! rule, the tree of a topology, and the windows of a table as the tree lets them be used.
#![tactic(auto)]

mod answers;
mod blocks;
mod decoder_lines;
mod of_images;
mod of_places;
mod of_topologies;
mod of_windows;
mod window_lines;
mod window_verdicts;

pub use cxl_inputs::Status;
pub use of_images::decoders;
pub use of_places::breaches;
pub use of_topologies::tree;
pub use of_windows::windows;
