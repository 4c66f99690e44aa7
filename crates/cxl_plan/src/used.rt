//! Which nodes and ports of the tree lead to the endpoints of a request.

ghost use Rattle.std.specs.Prelude.{◌≡◌, ℕ, ◌+◌, ◌<◌, ◌≤◌, ◌==◌, ◌||◌, ◌&&◌, Bool, [], true, false, if◌then◌else◌, insert, length, filter, min, slice_index_or, IfOk, OnOk, All};
ghost use Rattle.std.specs.List.{range_with_len};
ghost use Rattle.std.specs.Option.{option_map_or};
ghost use Rattle.cxl_topo.specs.Tree.{is_endpoint_at, parent_of};
ghost use Rattle.cxl_model.specs.declared.request.Request.{Request};
ghost use Rattle.cxl_model.specs.Counts.{is_under};
ghost use Rattle.cxl_legal.specs.Used.{is_used, count_under, count_at_port};
ghost use Rattle.cxl_plan.specs.inner.Uses.{tree_alone, ports_at, used_nodes, AreCounted, ArePorts, AreUses};
ghost use Rattle.cxl_plan.specs.inner.AtPorts.{ArePortsOf};

use cxl_model::Request;
use cxl_topo::{Parent, Topo, tree_laws};
use std::alloc::{AllocError, Global};

/// The nodes and ports that lead to the endpoints of a request.
#[derive(Drop)]
pub struct Uses {
    /// The used nodes, in rising order.
    pub nodes: Vec<u32>,
    /// How many of the endpoints lie under each of these.
    pub counts: Vec<u8>,
    /// The used ports of each of these, in rising order.
    pub ports: Vec<Vec<u8>>,
}

/// What leads to the endpoints of a request, found by their paths alone. Takes memory.
pub(crate) fn uses_of(alloc: Global, topo: &Topo, request: &Request) -> Result<Uses, AllocError>
    requires named { All (λ m. is_endpoint_at topo.now.nodes m ≡ true) request.now.endpoints }
    requires few { length request.now.endpoints ≤ 16 }
    ensures { IfOk result (AreUses topo.now.nodes request.now) }
{
    let mut nodes = Vec::new(alloc);
    let mut counts = Vec::new(alloc);
    count_all(&mut nodes, &mut counts, topo, request.endpoints.items())?;
    let ports = used_ports(alloc, topo, &nodes)?;
    Ok(Uses {
        nodes,
        counts,
        ports,
    })
}

/// Counts each of the endpoints under the nodes of its path. Takes memory.
fn count_all(
    nodes: &mut Vec<u32>,
    counts: &mut Vec<u8>,
    topo: &Topo,
    endpoints: &[u32],
) -> Result<(), AllocError>
    requires named { All (λ m. is_endpoint_at topo.now.nodes m ≡ true) endpoints.now }
    requires no_nodes { nodes.old.items ≡ [] }
    requires no_counts { counts.old.items ≡ [] }
    ensures { OnOk result (AreCounted (λ n. length (filter (is_under topo.now.nodes n) endpoints.now))
        (length topo.now.nodes) nodes.new.items counts.new.items) }
{
    for endpoint in endpoints {
        count_up(nodes, counts, topo, *endpoint)?;
    }
    Ok(())
}

/// Counts an endpoint more under a node and under each above it. Takes memory.
fn count_up(
    nodes: &mut Vec<u32>,
    counts: &mut Vec<u8>,
    topo: &Topo,
    node: u32,
) -> Result<(), AllocError>
    requires here { node < length topo.now.nodes }
    requires same { length counts.old.items ≡ length nodes.old.items }
    ensures same { OnOk result (length counts.new.items ≡ length nodes.new.items) }
    ensures counted { OnOk result ((f : ℕ → ℕ) → AreCounted f (length topo.now.nodes) nodes.old.items counts.old.items
        → AreCounted (λ n. f n + (if is_under topo.now.nodes n node then 1 else 0)) (length topo.now.nodes) nodes.new.items counts.new.items) }
{
    // A parent comes before its child.
    tree_laws();
    let _count = topo.count();
    count_one(nodes, counts, node)?;
    match topo.node(node).parent {
        Some(parent) => count_up(nodes, counts, topo, parent.node),
        None => Ok(()),
    }
}

/// Counts an endpoint more under a node. Takes memory.
fn count_one(nodes: &mut Vec<u32>, counts: &mut Vec<u8>, node: u32) -> Result<(), AllocError>
    requires same { length counts.old.items ≡ length nodes.old.items }
    ensures same { OnOk result (length counts.new.items ≡ length nodes.new.items) }
    ensures counted { OnOk result ((f : ℕ → ℕ) (limit : ℕ) → node < limit → AreCounted f limit nodes.old.items counts.old.items
        → AreCounted (λ n. f n + (if node == n then 1 else 0)) limit nodes.new.items counts.new.items) }
{
    match nodes.binary_search(&node) {
        Ok(place) => {
            add_one(counts, place);
            Ok(())
        }
        Err(place) => {
            nodes.insert(place, node)?;
            counts.insert(place, 1)?;
            Ok(())
        }
    }
}

/// Adds one to the count at a place.
fn add_one(counts: &mut Vec<u8>, place: usize)
    requires { place < length counts.old.items }
    ensures count { length counts.new.items ≡ length counts.old.items }
    ensures here { slice_index_or counts.new.items place 0 ≡ min (slice_index_or counts.old.items place 0 + 1) 255 }
    ensures others { (k : ℕ) → (k ≡ place → ⊥) → slice_index_or counts.new.items k 0 ≡ slice_index_or counts.old.items k 0 }
{
    counts[place] = counts[place].saturating_add(1);
}

/// The used ports of each used node, in rising order. Takes memory.
fn used_ports(alloc: Global, topo: &Topo, nodes: &[u32]) -> Result<Vec<Vec<u8>>, AllocError>
    requires { All (λ n. n < length topo.now.nodes) nodes.now }
    ensures { (request : Request) → nodes.now ≡ used_nodes topo.now.nodes request
        → IfOk result (λ ports. ArePorts topo.now.nodes request nodes.now ports.items) }
{
    tree_laws();
    let _count = topo.count();
    let mut ports = Vec::with_capacity(alloc, nodes.len())?;
    for node in nodes {
        ports.push(ports_under(alloc, topo, nodes, *node)?)?;
    }
    Ok(ports)
}

/// The ports of a node whose children are among these nodes, in rising order. Takes memory.
fn ports_under(alloc: Global, topo: &Topo, nodes: &[u32], node: u32) -> Result<Vec<u8>, AllocError>
    requires here { node < length topo.now.nodes }
    requires inside { All (λ n. n < length topo.now.nodes) nodes.now }
    ensures { IfOk result (λ ports. ArePortsOf topo.now.nodes nodes.now node ports.items) }
{
    tree_laws();
    let _count = topo.count();
    let mut ports = Vec::new(alloc);
    if topo.is_endpoint(node) {
        return Ok(ports);
    }
    for child in nodes {
        enter_port(&mut ports, topo, node, *child)?;
    }
    Ok(ports)
}

/// Enters the port of a node at which a child stands, where it does. Takes memory.
fn enter_port(ports: &mut Vec<u8>, topo: &Topo, node: u32, child: u32) -> Result<(), AllocError>
    requires { child < length topo.now.nodes }
    ensures { OnOk result ((p : ℕ → Bool) (limit : ℕ) → 256 ≤ limit → ports.old.items ≡ filter p (range_with_len 0 limit) → ports.new.items
        ≡ filter (λ port. option_map_or (λ parent. (parent.node == node) && (parent.port == port)) (parent_of topo.now.nodes child) false || p port) (range_with_len 0 limit)) }
{
    match topo.node(child).parent {
        Some(parent) => enter_port_of(ports, &parent, node),
        None => Ok(()),
    }
}

/// Enters the port of a parent, where that is this node. Takes memory.
fn enter_port_of(ports: &mut Vec<u8>, parent: &Parent, node: u32) -> Result<(), AllocError>
    ensures { OnOk result ((p : ℕ → Bool) (limit : ℕ) → 256 ≤ limit → ports.old.items ≡ filter p (range_with_len 0 limit) → ports.new.items
        ≡ filter (λ port. ((parent.now.node == node) && (parent.now.port == port)) || p port) (range_with_len 0 limit)) }
{
    if parent.node != node {
        return Ok(());
    }
    add_port(ports, parent.port)
}

/// Adds a port to ports in rising order, where it is none of them. Takes memory.
fn add_port(ports: &mut Vec<u8>, port: u8) -> Result<(), AllocError>
    ensures { OnOk result ((p : ℕ → Bool) (limit : ℕ) → 256 ≤ limit → ports.old.items ≡ filter p (range_with_len 0 limit)
        → ports.new.items ≡ filter (λ q. (port == q) || p q) (range_with_len 0 limit)) }
{
    match ports.binary_search(&port) {
        Ok(_) => Ok(()),
        Err(place) => {
            ports.insert(place, port)?;
            Ok(())
        }
    }
}

/// Where a used node stands among the used ones.
pub(crate) fn place_of(topo: &Topo, request: &Request, uses: &Uses, node: u32) -> usize
    requires uses { AreUses topo.now.nodes request.now uses.now }
    requires here { node < length topo.now.nodes }
    requires used { is_used (tree_alone topo.now.nodes) request.now node ≡ true }
    ensures within { result < length uses.now.nodes.items }
    ensures node { slice_index_or uses.now.nodes.items result 0 ≡ node }
{
    uses.nodes.binary_search(&node).unwrap()
}

/// The used ports of a used node, in rising order.
pub(crate) fn ports_of<'a>(topo: &Topo, request: &Request, uses: &'a Uses, node: u32) -> &'a [u8]
    requires uses { AreUses topo.now.nodes request.now uses.now }
    requires here { node < length topo.now.nodes }
    requires used { is_used (tree_alone topo.now.nodes) request.now node ≡ true }
    ensures { result.now ≡ ports_at topo.now.nodes request.now node }
{
    uses.ports[place_of(topo, request, uses, node)].as_slice()
}

/// How many of the endpoints lie under a used node.
pub(crate) fn count_of(topo: &Topo, request: &Request, uses: &Uses, node: u32) -> u8
    requires uses { AreUses topo.now.nodes request.now uses.now }
    requires here { node < length topo.now.nodes }
    requires used { is_used (tree_alone topo.now.nodes) request.now node ≡ true }
    ensures { result ≡ count_under (tree_alone topo.now.nodes) request.now node }
{
    uses.counts.as_slice()[place_of(topo, request, uses, node)]
}

/// How many of the endpoints lie under the child at each port of a node.
pub(crate) fn counts_at_ports(topo: &Topo, request: &Request, uses: &Uses, node: u32) -> [u8; 256]
    requires { AreUses topo.now.nodes request.now uses.now }
    ensures { (port : ℕ) → port < 256
        → slice_index_or result port 0 ≡ count_at_port (tree_alone topo.now.nodes) request.now node port }
{
    tree_laws();
    let _count = topo.count();
    let nodes = uses.nodes.as_slice();
    let counts = uses.counts.as_slice();
    let mut at = [0; 256];
    for place in 0..nodes.len() {
        enter_count(topo, nodes[place], counts[place], node, &mut at);
    }
    at
}

/// Enters the count of a node at its port, where it is a child of this one.
fn enter_count(topo: &Topo, child: u32, count: u8, node: u32, at: &mut [u8; 256])
    requires { child < length topo.now.nodes }
    ensures { (port : ℕ) → port < 256 → slice_index_or at.new port 0
        ≡ (if option_map_or (λ parent. (parent.node == node) && (parent.port == port)) (parent_of topo.now.nodes child) false
        then count else slice_index_or at.old port 0) }
{
    if let Some(parent) = topo.node(child).parent {
        enter_at(&parent, node, count, at);
    }
}

/// Enters a count at the port of a parent, where that is this node.
fn enter_at(parent: &Parent, node: u32, count: u8, at: &mut [u8; 256])
    ensures { (port : ℕ) → port < 256 → slice_index_or at.new port 0
        ≡ (if (parent.now.node == node) && (parent.now.port == port) then count else slice_index_or at.old port 0) }
{
    if parent.node == node {
        at[usize::from(parent.port)] = count;
    }
}
