//! Lines of a script, and commands that are counted, carried out over an open session.
#![tactic(auto)]

mod carrying_out;
mod commands;
mod counts;
mod endings;
mod lines;
mod replies;
mod stops;

pub use commands::carry_out_counted;
pub use counts::Counts;
pub use cxl_enc::Memory;
pub use endings::Ending;
pub use lines::carry_out_lines;
