//! The judge of a tree: the first fault of the least node.

ghost use Rattle.std.specs.Prelude.{◌≡◌, ◌+◌, ◌*◌, ◌<◌, ◌≤◌, ℕ, List, slice_get, length, take, IfOk, IfErr, OnOk, Some, None, ◌≢◌, false};
ghost use Rattle.cxl_enc.specs.Limits.{node_limit};
ghost use Rattle.cxl_topo.specs.declared.node.Node.{Node};
ghost use Rattle.cxl_topo.specs.Tree.{is_port_at, forwards_at};
ghost use Rattle.cxl_topo.specs.Faults.{are_too_many, lacks_parent, has_taken_port, forks, has_taken_uid, is_too_deep, has_wrong_caps, has_wrong_capacity, is_capacity, NoneBefore, IsFirstTreeFault};
ghost use Rattle.cxl_topo.specs.inner.Tables.{ListsChildren, ListsBridges};
ghost use Rattle.cxl_topo.specs.inner.AreTables.{AreTables};
ghost use Rattle.cxl_topo.specs.inner.Judging.{first_of, tests_of};

use crate::enter::enter_name;
use crate::fault::TreeFault;
use crate::node::{Capacity, Node, NodeKind};
use crate::paths::path_to;
use crate::tables::Tables;
use cxl_enc::{ADDRESS_LIMIT, BRIDGE_LIMIT, NODE_LIMIT, PLACEHOLDER_CAP, UNIT, legal_cap};
use std::alloc::Global;

/// How many nodes the path of a switch's parent has at the most: a bridge and three switches.
const MAX_ABOVE_SWITCH: u8 = 4;

/// Whether there are more nodes or bridges than a tree may have.
pub(crate) fn are_too_many(nodes: &[Node]) -> bool
    ensures { result ≡ are_too_many nodes.now }
{
    nodes.len() > NODE_LIMIT || nodes.iter().filter(|node| node.is_bridge()).count() > BRIDGE_LIMIT
}

/// The tables of the nodes, or their first fault, where they are not too many.
pub(crate) fn tables_or_fault(alloc: Global, nodes: &[Node]) -> Result<Tables, TreeFault>
    requires { are_too_many nodes.now ≡ false }
    ensures tables { IfOk result (λ tables. AreTables (length nodes.now) nodes.now tables) }
    ensures none { OnOk result (NoneBefore nodes.now (8 * length nodes.now + 1)) }
    ensures fault { IfErr result (λ fault. fault ≢ TreeFault.Memory → IsFirstTreeFault nodes.now fault) }
{
    let mut tables = Tables::new(alloc, nodes.len())?;
    for i in 0..nodes.len() as u32 {
        judge(nodes, i, &mut tables)?;
    }
    Ok(tables)
}

/// Enters node `i` after the earlier ones, or tells its first fault, where these have none.
pub(crate) fn judge(nodes: &[Node], i: u32, tables: &mut Tables) -> Result<(), TreeFault>
    requires below { i < length nodes.now }
    requires few { length nodes.now ≤ node_limit }
    requires earlier { NoneBefore nodes.now (8 * i + 1) }
    requires tables { AreTables (length nodes.now) (take i nodes.now) tables.old }
    ensures tables { OnOk result (AreTables (length nodes.now) (take (i + 1) nodes.now) tables.new) }
    ensures none { OnOk result (NoneBefore nodes.now (8 * i + 9)) }
    ensures fault { IfErr result (λ fault. fault ≢ TreeFault.Memory → IsFirstTreeFault nodes.now fault) }
{
    admit(nodes, i, &nodes[i as usize], tables)
}

// A name is looked for and entered at once; the rest of a node is entered when it has no fault.
fn admit(nodes: &[Node], i: u32, node: &Node, tables: &mut Tables) -> Result<(), TreeFault>
    requires below { i < length nodes.now }
    requires few { length nodes.now ≤ node_limit }
    requires here { slice_get nodes.now i ≡ Some node.now }
    requires earlier { NoneBefore nodes.now (8 * i + 1) }
    requires tables { AreTables (length nodes.now) (take i nodes.now) tables.old }
    ensures tables { OnOk result (AreTables (length nodes.now) (take (i + 1) nodes.now) tables.new) }
    ensures none { OnOk result (first_of (tests_of nodes.now i node.now) ≡ None) }
    ensures fault { IfErr result (λ fault. fault ≢ TreeFault.Memory → first_of (tests_of nodes.now i node.now) ≡ Some fault) }
{
    let earlier = &nodes[..i as usize];
    if lacks_parent(earlier, node) {
        return Err(TreeFault::NoParent(i));
    }
    if has_taken_port(tables, node) {
        return Err(TreeFault::PortTaken(i));
    }
    if forks(earlier, tables, node) {
        return Err(TreeFault::Forks(i));
    }
    let name_taken = enter_name(&mut tables.names, nodes, i, node)?;
    if name_taken {
        return Err(TreeFault::NameTaken(i));
    }
    if has_taken_uid(tables, node) {
        return Err(TreeFault::UidTaken(i));
    }
    if is_too_deep(nodes, i, node) {
        return Err(TreeFault::Depth(i));
    }
    if has_wrong_caps(node) {
        return Err(TreeFault::Caps(i));
    }
    if has_wrong_capacity(node) {
        return Err(TreeFault::Capacity(i));
    }
    Ok(tables.add(nodes, i)?)
}

fn lacks_parent(earlier: &[Node], node: &Node) -> bool
    ensures { result ≡ lacks_parent earlier.now node.now }
{
    match node.parent {
        Some(parent) => node.is_bridge() || !is_port(earlier, parent.node),
        None => !node.is_bridge(),
    }
}

fn is_port(nodes: &[Node], i: u32) -> bool
    ensures { result ≡ is_port_at nodes.now i }
{
    match nodes.get(i as usize) {
        Some(node) => !node.is_endpoint(),
        None => false,
    }
}

fn has_taken_port(tables: &Tables, node: &Node) -> bool
    ensures { (count : ℕ) (earlier : List Node) → ListsChildren count earlier tables.now.children → length earlier ≤ count → lacks_parent earlier node.now ≡ false → result ≡ has_taken_port earlier node.now }
{
    match node.parent {
        Some(parent) => tables.children.at(&parent).is_some(),
        None => false,
    }
}

fn forks(earlier: &[Node], tables: &Tables, node: &Node) -> bool
    requires { lacks_parent earlier.now node.now ≡ false }
    ensures { (count : ℕ) → ListsChildren count earlier.now tables.now.children → length earlier.now ≤ count → result ≡ forks earlier.now node.now }
{
    match node.parent {
        Some(parent) => forwards(earlier, parent.node)
            && tables.children.least(parent.node).is_some(),
        None => false,
    }
}

fn forwards(nodes: &[Node], i: u32) -> bool
    requires { i < length nodes.now }
    ensures { result ≡ forwards_at nodes.now i }
{
    nodes[i as usize].forwards
}

fn has_taken_uid(tables: &Tables, node: &Node) -> bool
    ensures { (earlier : List Node) → ListsBridges earlier tables.now.bridges → result ≡ has_taken_uid earlier node.now }
{
    match node.kind {
        NodeKind::Bridge(uid) => tables.bridges.get(&uid).is_some(),
        NodeKind::Switch | NodeKind::Endpoint(_) => false,
    }
}

fn is_too_deep(nodes: &[Node], i: u32, node: &Node) -> bool
    requires below { i < length nodes.now }
    requires few { length nodes.now ≤ node_limit }
    requires sound { NoneBefore nodes.now (8 * i + 2) }
    requires here { slice_get nodes.now i ≡ Some node.now }
    ensures { result ≡ is_too_deep nodes.now i node.now }
{
    match (node.kind, node.parent) {
        (NodeKind::Switch, Some(parent)) => path_to(nodes, parent.node).len > MAX_ABOVE_SWITCH,
        _ => false,
    }
}

fn has_wrong_caps(node: &Node) -> bool
    ensures { result ≡ has_wrong_caps node.now }
{
    let endpoint = node.is_endpoint();
    !legal_cap(node.cap, endpoint) || (node.forwards && (node.cap != PLACEHOLDER_CAP || endpoint))
}

fn has_wrong_capacity(node: &Node) -> bool
    ensures { result ≡ has_wrong_capacity node.now }
{
    match node.kind {
        NodeKind::Endpoint(capacity) => !is_capacity(&capacity),
        NodeKind::Bridge(_) | NodeKind::Switch => false,
    }
}

fn is_capacity(capacity: &Capacity) -> bool
    ensures { result ≡ is_capacity capacity.now }
{
    capacity.ram % UNIT == 0
        && capacity.pmem % UNIT == 0
        && capacity.ram <= ADDRESS_LIMIT
        && capacity.pmem <= ADDRESS_LIMIT - capacity.ram
}
