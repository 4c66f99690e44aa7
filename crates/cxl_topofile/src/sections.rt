//! The sections of a file, in the order in which their faults count.

ghost use Rattle.std.specs.Prelude.{◌≡◌, ◌≤◌, ◌++◌, Ok, IsTrue, IfOk};
ghost use Rattle.std.specs.List.{list_all};
ghost use Rattle.cxl_enc.specs.Limits.{frame_limit};
ghost use Rattle.toml.specs.Data.{as_array, no_items};
ghost use Rattle.toml.specs.View.{view, table_view, items_view};
ghost use Rattle.cxl_topofile.specs.Values.{value_at, Gives};
ghost use Rattle.cxl_topofile.specs.Drafts.{known_in, bridge_of};
ghost use Rattle.cxl_topofile.specs.Groups.{Reads, section_of, draft_of, all_of, are_tables, tables_of, tables_at, top_keys, top_of, stated_of};
ghost use Rattle.cxl_topofile.specs.inner.Seen.{seen_top, seen_stated, is_table, IsTop, AddsTable};
ghost use Rattle.std.specs.Prelude.{Some};
ghost use Rattle.cxl_topofile.specs.inner.Fields.{members_of, AreFields};
ghost use Rattle.cxl_topofile.specs.inner.Steps.{drafts_of};

use crate::draft::{Draft, read_bridge};
use crate::fault::{Section, TopoFault, Wrong};
use crate::fields::{Fields, fields_of, found};
use crate::group::Group;
use crate::key::Key;
use crate::stated::{Stated, Top};
use crate::value::number;
use cxl_enc::FRAME_LIMIT;
use cxl_topo::Node;
use std::alloc::Global;
use toml::{Table, Value};

const TOP_KEYS: [Key; 4] = [Key::Frames, Key::Bridge, Key::Switch, Key::Endpoint];

/// The frames of a file that states none.
const DEFAULT_FRAMES: i64 = 65_536;

/// The nodes and frames that a file states, or its first fault.
#[tactic(auto, unfolding(crate::specs::Groups::stated_of))]
pub(crate) fn read_table(alloc: Global, table: &Table) -> Result<Stated, TopoFault>
    ensures stated { Reads seen_stated result (stated_of (table_view table.now)) }
    ensures frames { IfOk result (λ stated. (1 ≤ stated.frames) × (stated.frames ≤ frame_limit)) }
{
    let top = match read_top(table) {
        Ok(top) => top,
        Err(wrong) => return Err(wrong.at(Section::Top, 0)),
    };
    let bridges = read_bridges(alloc, top.bridges)?;
    let drafts = read_groups(alloc, top.switches, top.endpoints)?;
    Ok(Stated {
        bridges,
        drafts,
        frames: top.frames,
    })
}

fn read_top(table: &Table) -> Result<Top<'_>, Wrong>
    ensures top { Gives seen_top result (top_of (table_view table.now)) }
    ensures sound { IfOk result IsTop }
{
    let fields = fields_of(table, &TOP_KEYS)?;
    top_from(&fields)
}

/// The top table of these fields.
#[tactic(auto, unfolding(crate::specs::Groups::top_of))]
fn top_from<'a>(fields: &Fields<'a>) -> Result<Top<'a>, Wrong>
    requires fields { AreFields fields.now }
    requires known { known_in (members_of fields.now) top_keys ≡ Ok tt }
    ensures top { Gives seen_top result (top_of (members_of fields.now)) }
    ensures sound { IfOk result IsTop }
{
    let frames = number(
        fields,
        Key::Frames,
        Some(DEFAULT_FRAMES),
        1,
        u64::from(FRAME_LIMIT),
    )?;
    let bridges = tables(fields, Key::Bridge)?;
    let switches = tables(fields, Key::Switch)?;
    let endpoints = tables(fields, Key::Endpoint)?;
    Ok(Top {
        frames: frames as u32,
        bridges,
        switches,
        endpoints,
    })
}

#[tactic(auto, unfolding(crate::specs::Groups::tables_at))]
fn tables<'a>(fields: &Fields<'a>, key: Key) -> Result<&'a [Value], Wrong>
    requires { AreFields fields.now }
    ensures tables { Gives (λ values. items_view values.now) result (tables_at (members_of fields.now) key) }
    ensures each { IfOk result (λ values. IsTrue (are_tables (items_view values.now))) }
{
    let values = array(fields, key)?;
    if !are_tables(values) {
        return Err(Wrong::of_other_kind(key));
    }
    Ok(values)
}

fn array<'a>(fields: &Fields<'a>, key: Key) -> Result<&'a [Value], Wrong>
    requires { AreFields fields.now }
    ensures { Gives (λ values. items_view values.now) result (value_at as_array (members_of fields.now) key (Some no_items)) }
{
    match found(fields, key) {
        Some(value) => match value.as_array() {
            Some(array) => Ok(array.as_slice()),
            None => Err(Wrong::of_other_kind(key)),
        },
        None => Ok(&[]),
    }
}

fn are_tables(values: &[Value]) -> bool
    ensures { result ≡ are_tables (items_view values.now) }
{
    all_tables(values)
}

fn all_tables(values: &[Value]) -> bool
    ensures { result ≡ list_all is_table values.now }
{
    values.iter().all(|value| value.is_table())
}

/// The bridges of these tables.
fn read_bridges(alloc: Global, values: &[Value]) -> Result<Vec<Node>, TopoFault>
    requires { IsTrue (are_tables (items_view values.now)) }
    ensures { Reads (λ nodes. nodes.items) result (all_of Section.Bridge bridge_of 0 (tables_of (items_view values.now))) }
{
    // A file within the limit has fewer tables. Where a longer one has more than a 32-bit number counts, no place
    // could be told, so it is refused as if memory were short.
    if values.len() > u32::MAX as usize {
        return Err(TopoFault::Memory);
    }
    let mut nodes = Vec::new(alloc);
    for (i, value) in values.iter().enumerate() {
        add_bridge_of(&mut nodes, i as u32, value)?;
    }
    Ok(nodes)
}

fn add_bridge_of(nodes: &mut Vec<Node>, index: u32, value: &Value) -> Result<(), TopoFault>
    requires { IsTrue (is_table value.now) }
    ensures { AddsTable nodes.old.items nodes.new.items result Section.Bridge bridge_of index value.now }
{
    let table = value.as_table().unwrap();
    match read_bridge(table) {
        Ok(node) => Ok(nodes.push(node)?),
        Err(wrong) => Err(wrong.at(Section::Bridge, index)),
    }
}

/// The switches, and after them the endpoints.
fn read_groups(
    alloc: Global,
    switches: &[Value],
    endpoints: &[Value],
) -> Result<Vec<Draft>, TopoFault>
    requires switches { IsTrue (are_tables (items_view switches.now)) }
    requires endpoints { IsTrue (are_tables (items_view endpoints.now)) }
    ensures { Reads (λ drafts. drafts.items) result (drafts_of (items_view switches.now) (items_view endpoints.now)) }
{
    let mut drafts = read_drafts(alloc, Group::Switches, switches)?;
    let last = read_drafts(alloc, Group::Endpoints, endpoints)?;
    drafts.extend_from_slice(&last)?;
    Ok(drafts)
}

/// The switches or the endpoints of these tables.
fn read_drafts(alloc: Global, group: Group, values: &[Value]) -> Result<Vec<Draft>, TopoFault>
    requires { IsTrue (are_tables (items_view values.now)) }
    ensures { Reads (λ drafts. drafts.items) result (all_of (section_of group) (draft_of group) 0 (tables_of (items_view values.now))) }
{
    // As for bridges.
    if values.len() > u32::MAX as usize {
        return Err(TopoFault::Memory);
    }
    let mut drafts = Vec::new(alloc);
    for (i, value) in values.iter().enumerate() {
        add_draft_of(&mut drafts, group, i as u32, value)?;
    }
    Ok(drafts)
}

fn add_draft_of(
    drafts: &mut Vec<Draft>,
    group: Group,
    index: u32,
    value: &Value,
) -> Result<(), TopoFault>
    requires { IsTrue (is_table value.now) }
    ensures { AddsTable drafts.old.items drafts.new.items result (section_of group) (draft_of group) index value.now }
{
    let table = value.as_table().unwrap();
    match group.read(table) {
        Ok(draft) => Ok(drafts.push(draft)?),
        Err(wrong) => Err(wrong.at(group.section(), index)),
    }
}
