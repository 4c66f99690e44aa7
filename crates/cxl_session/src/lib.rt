//! Sessions: commands over the registers and the memory of a host.
#![tactic(auto)]

mod accesses;
mod acting;
mod copies;
mod creating;
mod endpoints;
mod located;
mod on_device;
mod opening;
mod pending;
mod placing;
mod regions;
mod reports;
mod requests;
mod rows;
mod session;
mod showing;
mod storing;

pub use cxl_check::Breach;
pub use cxl_machine::OpenFault;
pub use pending::{Kind, PendingJob};
pub use session::Session;
