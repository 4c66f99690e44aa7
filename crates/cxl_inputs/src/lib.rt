//! The files that commands read, and how a command ends, early or well.
#![tactic(auto)]

mod beside;
mod both;
mod faults;
mod file;
mod host;
mod image;
mod outcome;
mod reset_host;
mod status;
mod stop;
mod table;
mod table_windows;
mod topology;

pub use beside::{Beside, Silent};
pub use host::{OwnedHost, fetch_host};
pub use image::given_image;
pub use outcome::Outcome;
pub use reset_host::fetch_reset_host;
pub use status::{Status, ended};
pub use stop::{Stop, finish};
pub use table::{fetch_table, given_table};
pub use table_windows::text_windows;
pub use topology::{fault_node, given_topology};
