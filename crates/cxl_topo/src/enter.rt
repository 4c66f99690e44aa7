//! How a node is entered into the tables of a tree.

ghost use Rattle.std.specs.Prelude.{◌≡◌, ◌<◌, ◌+◌, false, IfOk, OnOk, length, take, slice_get, Some};
ghost use Rattle.cxl_topo.specs.Tree.{bridge_uids};
ghost use Rattle.cxl_topo.specs.Faults.{has_taken_name};
ghost use Rattle.cxl_topo.specs.Keys.{Enters};
ghost use Rattle.cxl_topo.specs.inner.Tables.{ListsNames, ListsBridges};

use crate::node::{Node, NodeKind};
use crate::tables::NameKey;
use std::alloc::AllocError;
use std::collections::{BTreeMap, HashMap};

/// Enters the number of a node under a key, unless an earlier node has that key.
pub fn enter_first<K: Ord + Copy>(
    table: &mut BTreeMap<K, u32>,
    key: K,
    i: u32,
) -> Result<(), AllocError>
    ensures { OnOk result (Enters K.cmp table.old table.new key i) }
{
    table.entry(key)?.or_insert(i);
    Ok(())
}

/// Enters node `i` under its name, and tells whether an earlier node had that name, which then loses it.
pub(crate) fn enter_name(
    table: &mut HashMap<NameKey, u32>,
    nodes: &[Node],
    i: u32,
    node: &Node,
) -> Result<bool, AllocError>
    requires below { i < length nodes.now }
    requires here { slice_get nodes.now i ≡ Some node.now }
    requires listed { ListsNames (take i nodes.now) table.old }
    ensures taken { IfOk result (λ taken. taken ≡ has_taken_name (take i nodes.now) node.now) }
    ensures entered { IfOk result (λ taken. taken ≡ false → ListsNames (take (i + 1) nodes.now) table.new) }
{
    let earlier = table.insert(NameKey::of(&node.name), i)?;
    Ok(earlier.is_some())
}

/// Enters node `i` under its UID, where it is a bridge.
pub(crate) fn enter_bridge(
    table: &mut BTreeMap<u32, u32>,
    nodes: &[Node],
    i: u32,
) -> Result<(), AllocError>
    requires below { i < length nodes.now }
    requires listed { ListsBridges (take i nodes.now) table.old }
    ensures { OnOk result (ListsBridges (take (i + 1) nodes.now) table.new) }
{
    let node = &nodes[i as usize];
    match node.kind {
        NodeKind::Bridge(uid) => enter_first(table, uid, i),
        NodeKind::Switch | NodeKind::Endpoint(_) => Ok(()),
    }
}

/// Adds the UID of node `i` at the end, where it is a bridge.
pub(crate) fn add_uid(uids: &mut Vec<u32>, nodes: &[Node], i: u32) -> Result<(), AllocError>
    requires below { i < length nodes.now }
    requires listed { uids.old.items ≡ bridge_uids (take i nodes.now) }
    ensures { OnOk result (uids.new.items ≡ bridge_uids (take (i + 1) nodes.now)) }
{
    let node = &nodes[i as usize];
    match node.kind {
        NodeKind::Bridge(uid) => Ok(uids.push(uid)?),
        NodeKind::Switch | NodeKind::Endpoint(_) => Ok(()),
    }
}
