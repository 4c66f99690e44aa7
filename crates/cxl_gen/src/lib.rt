//! Generated systems: for each number from 1 to 32 a table, a topology and the commands that make regions over all of it,
//! store to each of them and load everything again.
#![tactic(auto)]

mod commands;
mod laws;
mod making;
mod names;
mod table;
mod tree;

pub use commands::{command_count, make_command};
pub use cxl_cedt::{Cedt, FixedList};
pub use cxl_enc::Memory;
pub use cxl_script::Command;
pub use cxl_topo::Topo;
pub use laws::made_systems_are_sound;
pub use making::{Made, make};
pub use table::made_table;
pub use tree::made_tree;
