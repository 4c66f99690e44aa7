//! Scripts: what a line asks for, or the first place at which it asks for nothing.
#![tactic(auto)]

mod command;
mod create;
mod digits;
mod fault;
mod laws;
mod limits;
mod line;
mod reading;
mod verb;
mod words;

pub use command::{Command, Create, Load, Pair, Poison, Reach, Store, Up};
pub use cxl_enc::{FixedList, MemKind, Memory, Name};
pub use cxl_io::LINE_LIMIT;
pub use fault::{BadLine, LineFault, Why};
pub use laws::{asked_commands_are_ranged, stated_granularities_are_codes};
pub use line::read_command;
