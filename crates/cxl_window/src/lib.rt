//! The host's fixed memory windows: which of them can be used, and which target a host address goes to.
#![tactic(auto)]

mod cfmws;
mod judge;
mod padding;
mod position;
mod restrictions;
mod verdicts;
mod window;

pub use cxl_enc::{FixedList, Memory};
pub use position::{positions, root_ways, slot_of, target_position, unxor};
pub use restrictions::{is_fixed, permits};
pub use verdicts::{windows, windows_by};
pub use window::{Verdict, Window};
