//! How many endpoints lead to a window.

ghost use Rattle.std.specs.Prelude.{◌≡◌, ◌<◌, length};
ghost use Rattle.cxl_model.specs.Hosts.{as_system};
ghost use Rattle.cxl_model.specs.Counts.{is_under};
ghost use Rattle.cxl_reason.specs.Reasons.{has_kind, is_below, lies_below, leads_there, count_there};

use cxl_enc::MemKind;
use cxl_model::Host;
use cxl_topo::{Topo, capacity_at};
use cxl_window::Window;

/// How many endpoints with memory of a kind lie below the target bridges of a window.
pub(crate) fn count_there(host: &Host, kind: MemKind, w: &Window) -> u32
    ensures { result ≡ count_there (as_system host.now) kind w.now }
{
    let mut count = 0;
    for node in 0..host.topo.count() {
        if leads_there(host, kind, w, node) {
            count += 1;
        }
    }
    count
}

/// Whether a node is an endpoint of the kind below a target bridge of the window.
fn leads_there(host: &Host, kind: MemKind, w: &Window, node: u32) -> bool
    requires { node < length host.now.topo.now.nodes }
    ensures { result ≡ leads_there (as_system host.now) kind w.now node }
{
    host.topo.is_endpoint(node) && has_kind(host, kind, node) && lies_below(host, w, node)
}

/// Whether a node's device has memory of the kind.
fn has_kind(host: &Host, kind: MemKind, node: u32) -> bool
    requires { node < length host.now.topo.now.nodes }
    ensures { result ≡ has_kind (as_system host.now) kind node }
{
    let capacity = capacity_at(host.topo, node);
    match kind {
        MemKind::Ram => 0 < capacity.ram,
        MemKind::Pmem => 0 < capacity.pmem,
    }
}

/// Whether a target bridge of the window stands on the path of a node.
fn lies_below(host: &Host, w: &Window, node: u32) -> bool
    requires { node < length host.now.topo.now.nodes }
    ensures { result ≡ lies_below (as_system host.now) w.now node }
{
    let targets = w.targets();
    for uid in targets {
        if stands_above(host.topo, *uid, node) {
            return true;
        }
    }
    false
}

/// Whether the bridge of a UID stands on the path of a node.
fn stands_above(topo: &Topo, uid: u32, node: u32) -> bool
    requires { node < length topo.now.nodes }
    ensures { result ≡ is_below topo.now.nodes uid node }
{
    match topo.bridge(uid) {
        Some(bridge) => is_under(topo, bridge, node),
        None => false,
    }
}

/// Whether a node stands on the path of another, or is that one.
fn is_under(topo: &Topo, node: u32, below: u32) -> bool
    requires { below < length topo.now.nodes }
    ensures { result ≡ is_under topo.now.nodes node below }
{
    let path = topo.path(below);
    path.nodes[..path.len as usize].contains(&node)
}
