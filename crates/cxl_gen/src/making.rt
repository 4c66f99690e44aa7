//! Generated systems: a table, a topology and the commands that are given to it, by number.

ghost use Rattle.std.specs.Prelude.{◌≡◌, ◌≤◌, IfOk};
ghost use Rattle.cxl_gen.specs.Made.{made_table, made_tree, made_commands};

use crate::commands::commands_of;
use crate::table::made_table;
use crate::tree::made_tree;
use cxl_cedt::Cedt;
use cxl_enc::{FixedList, Memory};
use cxl_script::Command;
use cxl_topo::Topo;
use std::alloc::Global;

/// A generated system: its table and topology, and the commands that are given to it.
#[derive(Drop)]
pub struct Made {
    pub cedt: Cedt,
    pub topo: Topo,
    pub commands: FixedList<Command>,
}

/// The system and the commands of a number from 1 to 32 (this project's rule). Takes memory, all of it at once for the
/// commands but for the bytes that they hold.
pub fn make(alloc: Global, n: u32) -> Result<Made, Memory>
    requires some { 1 ≤ n }
    requires few { n ≤ 32 }
    ensures table { IfOk result (λ made. made.cedt ≡ made_table n) }
    ensures tree { IfOk result (λ made. made.topo ≡ made_tree n) }
    ensures commands { IfOk result (λ made. made.commands ≡ made_commands n) }
{
    let cedt = made_table(alloc, n)?;
    let topo = made_tree(alloc, n)?;
    let commands = FixedList::new(commands_of(alloc, n)?);
    Ok(Made {
        cedt,
        topo,
        commands,
    })
}
