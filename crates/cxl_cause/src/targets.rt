//! K10: why a decoder does not lead where it has to.

ghost use Rattle.std.specs.Prelude.{◌≡◌, ◌+◌, ◌-◌, ◌<◌, ◌==◌, ◌&&◌, false, length, map};
ghost use Rattle.std.specs.List.{range_with_len};
ghost use Rattle.std.specs.Option.{option_map_or};
ghost use Rattle.cxl_topo.specs.Tree.{is_bridge_at, landing_of};
ghost use Rattle.cxl_regs.specs.Reading.{decoder_ways, entry_at, entries_of, range_of};
ghost use Rattle.cxl_model.specs.Hosts.{as_system};
ghost use Rattle.cxl_model.specs.Rules.{is_bridge_landing};
ghost use Rattle.cxl_cause.specs.RangeCauses.{entry_listing, same_port, entry_cause, entries_cause, ports_cause, target_cause, targets_cause, landings_cause, lead_cause};

use crate::cause::Cause;
use crate::lookups::{serves, window_for};
use cxl_model::Host;
use cxl_regs::{Decoder, Range};
use cxl_topo::Topo;
use cxl_window::Window;

/// The cause of K10 at a committed decoder.
pub(crate) fn lead_cause(host: &Host, node: u32, d: &Decoder) -> Option<Cause>
    requires { node < length host.now.topo.now.nodes }
    ensures { result ≡ lead_cause (as_system host.now) node d.now }
{
    match ports_cause(host, node, d) {
        Some(cause) => Some(cause),
        None => landings_cause(host, node, d),
    }
}

/// That of a port's entries.
fn ports_cause(host: &Host, node: u32, d: &Decoder) -> Option<Cause>
    requires { node < length host.now.topo.now.nodes }
    ensures { result ≡ ports_cause (as_system host.now) node d.now }
{
    if host.topo.is_endpoint(node) {
        return None;
    }
    match same_port(d) {
        Some(cause) => Some(cause),
        None => entries_cause(host, &d.range(), node, d),
    }
}

/// The first entry that lists the port of a later one.
fn same_port(d: &Decoder) -> Option<Cause>
    ensures { result ≡ same_port 0 (entries_of d.now) }
{
    for entry in 0..d.interleave_ways() {
        if let Some(other) = listed_later(d, entry) {
            return Some(Cause::SamePort { entry, other });
        }
    }
    None
}

/// The first entry behind this one that lists the same port.
fn listed_later(d: &Decoder, entry: u8) -> Option<u8>
    requires { entry < decoder_ways d.now }
    ensures { result ≡ entry_listing (entry_at d.now entry) (entry + 1)
        (map (entry_at d.now) (range_with_len (entry + 1) (decoder_ways d.now - (entry + 1)))) }
{
    let ways = d.interleave_ways();
    let port = d.entry_at(entry);
    for other in entry + 1..ways {
        if d.entry_at(other) == port {
            return Some(other);
        }
    }
    None
}

/// The first entry that does not lead on.
fn entries_cause(host: &Host, range: &Range, node: u32, d: &Decoder) -> Option<Cause>
    requires { node < length host.now.topo.now.nodes }
    ensures { result ≡ entries_cause (as_system host.now) range.now node 0 (entries_of d.now) }
{
    for entry in 0..d.interleave_ways() {
        if let Some(cause) = entry_cause(host, range, node, entry, d.entry_at(entry)) {
            return Some(cause);
        }
    }
    None
}

/// Why an entry does not lead on to a node that serves the range.
fn entry_cause(host: &Host, range: &Range, node: u32, entry: u8, port: u8) -> Option<Cause>
    requires { node < length host.now.topo.now.nodes }
    ensures { result ≡ entry_cause (as_system host.now) range.now node entry port }
{
    let Some(child) = host.topo.child(node, port) else {
        return Some(Cause::NoChild { entry, port });
    };
    match host.topo.landing(child) {
        None => Some(Cause::NoLanding { entry, child }),
        Some(landing) if serves(host.image, range, landing) => None,
        Some(landing) => Some(Cause::NotServed { entry, landing }),
    }
}

/// That of the targets of the range's window, where the node is the landing of a bridge.
fn landings_cause(host: &Host, node: u32, d: &Decoder) -> Option<Cause>
    requires { node < length host.now.topo.now.nodes }
    ensures { result ≡ landings_cause (as_system host.now) node d.now }
{
    let range = d.range();
    if !is_bridge_landing(host.topo, node) {
        return None;
    }
    match window_for(host.windows, &range) {
        Some(w) => targets_cause(host, &range, w),
        None => None,
    }
}

/// Whether a node is the landing of some bridge.
fn is_bridge_landing(topo: &Topo, node: u32) -> bool
    ensures { result ≡ is_bridge_landing topo.now.nodes node }
{
    for bridge in 0..topo.count() {
        if is_landing_of(topo, bridge, node) {
            return true;
        }
    }
    false
}

/// Whether a node is that of a bridge, and another is its landing.
fn is_landing_of(topo: &Topo, bridge: u32, node: u32) -> bool
    requires { bridge < length topo.now.nodes }
    ensures { result ≡ (is_bridge_at topo.now.nodes bridge
        && option_map_or (λ m. m == node) (landing_of topo.now.nodes bridge) false) }
{
    if !topo.node(bridge).is_bridge() {
        return false;
    }
    match topo.landing(bridge) {
        Some(landing) => landing == node,
        None => false,
    }
}

/// The first target of a window that is no bridge that lands on the range.
fn targets_cause(host: &Host, range: &Range, w: &Window) -> Option<Cause>
    ensures { result ≡ targets_cause (as_system host.now) range.now w.now w.now.targets }
{
    let targets = w.targets();
    for uid in targets {
        if let Some(cause) = target_cause(host, range, w, *uid) {
            return Some(cause);
        }
    }
    None
}

/// Why a target is none.
fn target_cause(host: &Host, range: &Range, w: &Window, uid: u32) -> Option<Cause>
    ensures { result ≡ target_cause (as_system host.now) range.now w.now uid }
{
    let window = w.index();
    let Some(bridge) = host.topo.bridge(uid) else {
        return Some(Cause::NoBridge { window, uid });
    };
    match host.topo.landing(bridge) {
        None => Some(Cause::TargetWithoutLanding {
            window,
            uid,
            bridge,
        }),
        Some(landing) if serves(host.image, range, landing) => None,
        Some(landing) => Some(Cause::TargetNotServed {
            window,
            uid,
            landing,
        }),
    }
}
