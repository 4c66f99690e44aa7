//! A session that a program keeps over the simulator, with its registers and its device memory.
#![tactic(auto)]

mod acting;
mod asking;
mod held;
mod opening;
mod passing;
mod trail_bus;

pub use cxl_bus::Sent;
pub use cxl_inputs::Status;
pub use held::Held;
pub use trail_bus::{ROOM, TrailBus};
