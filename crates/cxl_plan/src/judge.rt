//! What a request has to keep whatever the window.

ghost use Rattle.std.specs.Prelude.{◌≡◌, ◌<◌, ◌==◌, nat_le, ◌&&◌, ◌||◌, not, [], true, List, length, find, slice_index_or, option_map, IfSome};
ghost use Rattle.std.specs.Option.{option_map_or};
ghost use Rattle.std.specs.List.{list_all, range_with_len, All};
ghost use Rattle.cxl_enc.specs.Caps.{targets_of, is_target_count};
ghost use Rattle.cxl_topo.specs.declared.node.Node.{Node};
ghost use Rattle.cxl_model.specs.declared.request.Request.{Request};
ghost use Rattle.cxl_window.specs.Windows.{first_repeat};
ghost use Rattle.cxl_legal.specs.Used.{is_used, count_under};
ghost use Rattle.cxl_legal.specs.Endpoints.{first_bridge, lacks_decoder};
ghost use Rattle.cxl_plan.specs.inner.Uses.{tree_alone, AreUses};
ghost use Rattle.cxl_plan.specs.inner.Judging.{uneven_at, without_windows};

use crate::used::{Uses, count_of, counts_at_ports, ports_of};
use cxl_enc::target_count;
use cxl_image::Image;
use cxl_legal::is_full;
use cxl_model::Request;
use cxl_topo::Topo;

/// The first endpoint that stands earlier in the list too.
pub(crate) fn repeated(endpoints: &[u32]) -> Option<u32>
    ensures { result ≡ first_repeat [] endpoints.now }
{
    for (i, endpoint) in endpoints.iter().enumerate() {
        if endpoints[..i].contains(endpoint) {
            return Some(*endpoint);
        }
    }
    None
}

/// The least node under which the endpoints do not lie evenly.
pub(crate) fn first_uneven(topo: &Topo, request: &Request, uses: &Uses) -> Option<u32>
    requires { AreUses topo.now.nodes request.now uses.now }
    ensures { result ≡ find (uneven_at topo.now.nodes request.now) (range_with_len 0 (length topo.now.nodes)) }
{
    let share = first_share(topo, request, uses);
    for node in &uses.nodes {
        if is_uneven(topo, request, uses, share, *node) {
            return Some(*node);
        }
    }
    None
}

/// How many of the endpoints lie under the used bridge that has the least number.
fn first_share(topo: &Topo, request: &Request, uses: &Uses) -> Option<u8>
    requires { AreUses topo.now.nodes request.now uses.now }
    ensures { result ≡ option_map (count_under (tree_alone topo.now.nodes) request.now) (first_bridge (tree_alone topo.now.nodes) request.now) }
{
    let bridge = first_bridge(topo, request, uses)?;
    Some(count_of(topo, request, uses, bridge))
}

/// The used bridge that has the least number.
fn first_bridge(topo: &Topo, request: &Request, uses: &Uses) -> Option<u32>
    requires { AreUses topo.now.nodes request.now uses.now }
    ensures first { result ≡ first_bridge (tree_alone topo.now.nodes) request.now }
    ensures inside { IfSome result (λ n. n < length topo.now.nodes) }
    ensures used { IfSome result (λ n. is_used (tree_alone topo.now.nodes) request.now n ≡ true) }
{
    for node in &uses.nodes {
        if topo.node(*node).is_bridge() {
            return Some(*node);
        }
    }
    None
}

/// Whether a used node is a port under which the endpoints do not lie evenly. `share` are the endpoints under the
/// first used bridge.
fn is_uneven(topo: &Topo, request: &Request, uses: &Uses, share: Option<u8>, node: u32) -> bool
    requires uses { AreUses topo.now.nodes request.now uses.now }
    requires here { node < length topo.now.nodes }
    requires used { is_used (tree_alone topo.now.nodes) request.now node ≡ true }
    requires share { share ≡ option_map (count_under (tree_alone topo.now.nodes) request.now) (first_bridge (tree_alone topo.now.nodes) request.now) }
    ensures { result ≡ uneven_at topo.now.nodes request.now node }
{
    if topo.is_endpoint(node) {
        return false;
    }
    let own = topo.node(node);
    let ports = ports_of(topo, request, uses, node);
    let at = counts_at_ports(topo, request, uses, node);
    let even = has_even_ports(ports, own.cap);
    let same = are_same(&at, ports);
    let count = count_of(topo, request, uses, node);
    let shared = has_share(own.is_bridge(), count, share);
    lacks_any(even, same, shared)
}

/// Whether a port lacks one of these.
fn lacks_any(even: bool, same: bool, shared: bool) -> bool
    ensures { result ≡ not (even && same && shared) }
{
    !(even && same && shared)
}

/// Whether the used ports of a node are 1, 2, 4 or 8, and no more than its targets.
fn has_even_ports(ports: &[u8], cap: u32) -> bool
    ensures { result ≡ (is_target_count (length ports.now) && nat_le (length ports.now) (targets_of cap)) }
{
    let count = ports.len();
    matches!(count, 1 | 2 | 4 | 8) && count <= usize::from(target_count(cap))
}

/// Whether the counts at these ports are all the same.
fn are_same(at: &[u8; 256], ports: &[u8]) -> bool
    ensures { result ≡ list_all (λ port. list_all (λ other. slice_index_or at.now port 0 == slice_index_or at.now other 0) ports.now) ports.now }
{
    ports.iter().all(|port| are_as(at, ports, *port))
}

/// Whether the counts at these ports are that at this one.
fn are_as(at: &[u8; 256], ports: &[u8], port: u8) -> bool
    ensures { result ≡ list_all (λ other. slice_index_or at.now port 0 == slice_index_or at.now other 0) ports.now }
{
    ports
        .iter()
        .all(|other| at[usize::from(port)] == at[usize::from(*other)])
}

/// Whether a bridge has the share of the first used bridge.
fn has_share(bridge: bool, count: u8, share: Option<u8>) -> bool
    ensures { result ≡ (not bridge || option_map_or (λ first. count == first) share true) }
{
    if !bridge {
        return true;
    }
    match share {
        Some(first) => count == first,
        None => true,
    }
}

/// The least used node with every decoder committed.
pub(crate) fn first_full(image: &Image, uses: &Uses) -> Option<u32>
    requires { All (λ n. n < length image.now) uses.now.nodes.items }
    ensures { (nodes : List Node) (request : Request) → length image.now ≡ length nodes → AreUses nodes request uses.now
        → result ≡ find (lacks_decoder (without_windows nodes image.now) request) (range_with_len 0 (length nodes)) }
{
    for node in &uses.nodes {
        if is_full(image.block(*node)) {
            return Some(*node);
        }
    }
    None
}
