//! The commands of `cxlplan` that work by their words and files alone.
#![tactic(auto)]

mod command_line;
mod commands;
mod form;

pub use command_line::words;
pub use commands::check::{check, check_statuses, checked};
pub use commands::help::{HELP, VERSION, help_statuses};
pub use commands::list::list_statuses;
pub use commands::normal::normal_statuses;
pub use commands::plan::{plan, plan_statuses};
pub use commands::route::route_statuses;
pub use commands::{of_table, said};
pub use form::{Form, HostAsk, ResetAsk, TableAsk, WordsAsk, form_of};
