//! The command line of `cxlplan`, over files, a script, a sink, registers and device memory that are handed in.
#![tactic(auto)]

mod commands;
mod completeness;
mod files;
mod headline;
mod programs;
mod runs;
mod shell;
mod statuses;

pub use commands::script::{over_session, unopened};
pub use completeness::runs_are_complete;
pub use cxl_commands::{
    HELP, VERSION, check_statuses, help_statuses, list_statuses, normal_statuses, plan_statuses,
    route_statuses, words,
};
pub use cxl_inputs::{Beside, Silent, Status, ended};
pub use files::{file_statuses, image_statuses, table_statuses, topology_statuses};
pub use headline::runs_are_flat;
pub use programs::program;
pub use runs::{run_ends, runs_of_files};
pub use shell::run;
pub use statuses::{gen_statuses, script_statuses};
