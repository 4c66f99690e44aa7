//! The windows of a table as the bridges of a topology let them be used, as lines.

ghost use Rattle.std.specs.Prelude.{◌≡◌, ◌≤◌, ◌++◌, [], Some, IfOk, OnOk, length};
ghost use Rattle.std.specs.List.{cons_option, filter_map, flat_map, zip};
ghost use Rattle.cxl_reads.specs.Answers.{ComesTo, IsAnswered, told};
ghost use Rattle.cxl_reads.specs.Windows.{group_in, seen_line, windows_text, AreWindows};
ghost use Rattle.cxl_topo.specs.Tree.{bridge_uids};
ghost use Rattle.cxl_window.specs.Windows.{windows_of};

use crate::answers::{TABLE, TOPOLOGY, told};
use crate::window_lines::put_window_line;
use cxl_enc::Memory;
use cxl_inputs::{Outcome, Status, Stop, finish, given_table, given_topology};
use cxl_io::Sink;
use cxl_table::{Cedt, Record};
use cxl_topo::Topo;
use cxl_window::Window;
use std::alloc::Global;

/// Writes a line for each window of a table, with the verdict that a check or a plan over this topology gives it: a target that is
/// no bridge there is missing, too. Behind a verdict stands which of its causes it is. A file that has a fault is told as the
/// program tells it. Where memory runs out, nothing is written.
pub fn windows<K: Sink>(alloc: Global, cedt: &[u8], topo: &[u8], out: &mut K) -> Status
    ensures answer { IsAnswered (AreWindows cedt.now topo.now) result (K.state out.old) (K.state out.new) }
    ensures counts { (K.state out.old).faults ≤ (K.state out.new).faults }
{
    finish(windows_told(alloc, cedt, topo), out)
}

/// What telling them comes to.
fn windows_told(alloc: Global, cedt: &[u8], topo: &[u8]) -> Result<Outcome, Stop>
    ensures { ComesTo (AreWindows cedt.now topo.now) result }
{
    let table = given_table(alloc, TABLE, cedt)?;
    let topo = given_topology(alloc, TOPOLOGY, topo)?;
    let told = told_over(alloc, &table, &topo)?;
    Ok(told)
}

/// The windows of a table over the bridges of a topology, as lines.
fn told_over(alloc: Global, table: &Cedt, topo: &Topo) -> Result<Outcome, Memory>
    ensures { IfOk result (λ outcome. outcome ≡ told (windows_text table.now.records (bridge_uids topo.now.nodes))) }
{
    let windows = judged(alloc, table, topo)?;
    let groups = groups_of(alloc, table.records())?;
    let mut text = Vec::new(alloc);
    put_windows(&mut text, table.records(), &windows, &groups)?;
    Ok(told(text))
}

/// The windows of a table as they are judged with the bridges of a topology, one for each throttling group.
fn judged(alloc: Global, table: &Cedt, topo: &Topo) -> Result<Vec<Window>, Memory>
    ensures windows { IfOk result (λ ws. ws.items ≡ windows_of table.now.records (Some (bridge_uids topo.now.nodes))) }
    ensures one_each { IfOk result (λ ws. length ws.items ≡ length (filter_map group_in table.now.records)) }
{
    cxl_window::windows(alloc, table, Some(topo.uids()))
}

/// The throttling groups of windows, by their records.
fn groups_of(alloc: Global, records: &[Record]) -> Result<Vec<u16>, Memory>
    ensures { IfOk result (λ groups. groups.items ≡ filter_map group_in records.now) }
{
    let mut groups = Vec::new(alloc);
    for record in records {
        add_group(&mut groups, record)?;
    }
    Ok(groups)
}

/// Adds the throttling group of a record that is a window's.
fn add_group(groups: &mut Vec<u16>, item: &Record) -> Result<(), Memory>
    ensures { OnOk result (groups.new.items ≡ groups.old.items ++ cons_option (group_in item.now) []) }
{
    match item {
        Record::Cfmws(window) => Ok(groups.push(window.qtg())?),
        _ => Ok(()),
    }
}

/// Appends the line of each window of a table, whose records have these throttling groups.
fn put_windows(
    out: &mut Vec<u8>,
    records: &[Record],
    windows: &[Window],
    groups: &[u16],
) -> Result<(), Memory>
    requires { length windows.now ≡ length groups.now }
    ensures { OnOk result (out.new.items ≡ out.old.items ++ flat_map (seen_line records.now) (zip windows.now groups.now)) }
{
    for i in 0..windows.len() {
        put_window_line(out, records, &windows[i], groups[i])?;
    }
    Ok(())
}
