//! The bus whose registers are another program's: each access is a line over one pipe, and a line that answers it over
//! another.
#![tactic(auto)]

mod answer;
mod peer;
mod pipe_bus;
mod pipes;
mod question;
mod trouble;

pub use peer::{Astray, How, Peer};
pub use pipe_bus::PipeBus;
pub use pipes::Pipes;
pub use trouble::{Last, Trouble};
