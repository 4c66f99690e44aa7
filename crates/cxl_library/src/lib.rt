//! The forms of the command line as calls over bytes in memory, for programs in other languages: files and a script are slices of the
//! caller, registers and device memory the simulator's, and the text goes into the caller's room.
#![tactic(auto)]

mod behind;
mod forms;
mod held_texts;
mod last_line;
mod reads;
mod room;
mod running;
mod slice_source;
mod slices;
mod unheard;
mod window_reads;
mod word_lines;
mod words;

pub use behind::HeldText;
pub use cxl_inputs::Status;
pub use forms::{
    check, generate, list, normal, plan, route, run_from_image, run_from_reset, version,
};
pub use held_texts::{held_from_image, held_from_reset};
pub use reads::{breaches, decoders, tree};
pub use room::TextRoom;
pub use slice_source::SliceSource;
pub use slices::Slices;
pub use window_reads::windows;
