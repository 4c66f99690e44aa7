//! Parents by name.

ghost use Rattle.std.specs.Prelude.{◌≡◌, [], ◌∷◌, ◌++◌, ◌+◌, ◌<◌, ◌≤◌, List, length, not, IfOk, OnOk};
ghost use Rattle.cxl_enc.specs.Limits.{node_limit};
ghost use Rattle.cxl_topo.specs.Kinds.{is_endpoint};
ghost use Rattle.cxl_topo.specs.declared.node.Node.{Node};
ghost use Rattle.cxl_topofile.specs.File.{node_under, attached};
ghost use Rattle.cxl_topofile.specs.inner.Ports.{ListsPorts};

use crate::draft::Draft;
use cxl_topo::{NameKey, Node, Parent};
use std::alloc::{AllocError, Global};
use std::collections::HashMap;

/// The bridges, and after them the others, each under the first earlier bridge or switch with its
/// parent's name. Takes memory.
pub(crate) fn attach(
    alloc: Global,
    bridges: &[Node],
    drafts: &[Draft],
) -> Result<Vec<Node>, AllocError>
    requires { length bridges.now + length drafts.now ≤ node_limit }
    ensures { IfOk result (λ nodes. nodes.items ≡ attached bridges.now drafts.now) }
{
    let mut nodes = Vec::with_capacity(alloc, bridges.len() + drafts.len())?;
    add_nodes(alloc, &mut nodes, bridges, drafts)?;
    Ok(nodes)
}

/// Adds the bridges, and after them the nodes of the drafts.
fn add_nodes(
    alloc: Global,
    nodes: &mut Vec<Node>,
    bridges: &[Node],
    drafts: &[Draft],
) -> Result<(), AllocError>
    requires few { length bridges.now + length drafts.now ≤ node_limit }
    requires none { nodes.old.items ≡ [] }
    ensures { OnOk result (nodes.new.items ≡ attached bridges.now drafts.now) }
{
    let mut ports = HashMap::with_capacity(alloc, bridges.len())?;
    add_bridge_nodes(nodes, &mut ports, bridges)?;
    add_drafts(nodes, &mut ports, drafts)
}

/// Adds the bridges, the first nodes.
fn add_bridge_nodes(
    nodes: &mut Vec<Node>,
    ports: &mut HashMap<NameKey, u32>,
    bridges: &[Node],
) -> Result<(), AllocError>
    requires few { length bridges.now ≤ node_limit }
    requires none { nodes.old.items ≡ [] }
    requires listed { ListsPorts nodes.old.items ports.old }
    ensures added { OnOk result (nodes.new.items ≡ bridges.now) }
    ensures listed { OnOk result (ListsPorts nodes.new.items ports.new) }
{
    for bridge in bridges {
        add_node(nodes, ports, *bridge)?;
    }
    Ok(())
}

/// Adds the nodes of the drafts, each under one of the nodes before it.
fn add_drafts(
    nodes: &mut Vec<Node>,
    ports: &mut HashMap<NameKey, u32>,
    drafts: &[Draft],
) -> Result<(), AllocError>
    requires few { length nodes.old.items + length drafts.now ≤ node_limit }
    requires listed { ListsPorts nodes.old.items ports.old }
    ensures { OnOk result (nodes.new.items ≡ attached nodes.old.items drafts.now) }
{
    for draft in drafts {
        let node = node_under(ports, draft);
        add_node(nodes, ports, node)?;
    }
    Ok(())
}

/// Adds a node, and enters it among the bridges and switches by name where it is one.
fn add_node(
    nodes: &mut Vec<Node>,
    ports: &mut HashMap<NameKey, u32>,
    node: Node,
) -> Result<(), AllocError>
    requires few { length nodes.old.items < node_limit }
    requires listed { ListsPorts nodes.old.items ports.old }
    ensures added { OnOk result (nodes.new.items ≡ nodes.old.items ++ node ∷ []) }
    ensures listed { OnOk result (ListsPorts nodes.new.items ports.new) }
{
    enter_port(ports, nodes, &node)?;
    Ok(nodes.push(node)?)
}

/// The node of a draft, under the first bridge or switch with its parent's name.
fn node_under(ports: &HashMap<NameKey, u32>, draft: &Draft) -> Node
    ensures { (nodes : List Node) → ListsPorts nodes ports.now → result ≡ node_under nodes draft.now }
{
    let parent = match ports.get(&NameKey::of(&draft.parent)).copied() {
        Some(node) => Some(Parent {
            node,
            port: draft.port,
        }),
        None => None,
    };
    Node {
        name: draft.name,
        kind: draft.kind,
        parent,
        cap: draft.cap,
        forwards: draft.forwards,
    }
}

/// Whether other nodes may stand under a node.
fn may_be_parent(node: &Node) -> bool
    ensures { result ≡ not (is_endpoint node.now.kind) }
{
    !node.is_endpoint()
}

/// Enters a node behind the earlier ones, unless it is an endpoint or one of them has its name.
fn enter_port(
    ports: &mut HashMap<NameKey, u32>,
    earlier: &[Node],
    node: &Node,
) -> Result<(), AllocError>
    requires few { length earlier.now < node_limit }
    requires listed { ListsPorts earlier.now ports.old }
    ensures { OnOk result (ListsPorts (earlier.now ++ node.now ∷ []) ports.new) }
{
    if !may_be_parent(node) {
        return Ok(());
    }
    let entry = ports.entry(NameKey::of(&node.name))?;
    entry.or_insert(earlier.len() as u32);
    Ok(())
}
