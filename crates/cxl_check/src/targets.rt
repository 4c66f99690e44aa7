//! K10: what a decoder leads to.

ghost use Rattle.std.specs.Prelude.{◌≡◌, ◌+◌, ◌-◌, ◌<◌, ◌==◌, ◌&&◌, ◌||◌, not, true, false, [], length, map, find};
ghost use Rattle.std.specs.List.{list_all, list_any, range_with_len};
ghost use Rattle.std.specs.Option.{option_map_or};
ghost use Rattle.cxl_topo.specs.Tree.{bridge_with, is_endpoint_at};
ghost use Rattle.cxl_regs.specs.Reading.{decoder_ways, entry_at, entries_of};
ghost use Rattle.cxl_model.specs.Hosts.{as_system};
ghost use Rattle.cxl_model.specs.Ranges.{lies_within};
ghost use Rattle.cxl_model.specs.Rules.{are_distinct, lands_on, leads_on, targets_land, is_bridge_landing, keeps_targets};
ghost use Rattle.cxl_regs.specs.Reading.{range_of};
ghost use Rattle.cxl_check.specs.inner.Children.{AreAllChildren};
ghost use Rattle.cxl_check.specs.inner.Facts.{AreSystemTables};
ghost use Rattle.cxl_check.specs.inner.Firsts.{AreLandings};
ghost use Rattle.cxl_check.specs.inner.Known.{IsKnownAs};

use crate::children::child_at;
use crate::decoders::serves;
use crate::known::{Known, window_of};
use crate::tables::Tables;
use cxl_model::Host;
use cxl_regs::{Decoder, Range};
use cxl_window::Window;

/// K10 of a committed decoder: a port's entries differ, and each leads on; and where the node is the landing of a bridge,
/// each target of the range's window lands on the range.
pub(crate) fn keeps_targets(
    host: &Host,
    known: &Known,
    tables: &Tables,
    node: u32,
    likely: u8,
    d: &Decoder,
) -> bool
    requires known { IsKnownAs (as_system host.now) (range_of d.now) known.now }
    requires here { node < length host.now.topo.now.nodes }
    requires tables { AreSystemTables (as_system host.now) tables.now }
    ensures { result ≡ keeps_targets (as_system host.now) node d.now }
{
    let range = d.range();
    entries_differ_and_lead_on(host, &tables.children, &range, node, likely, d)
        && targets_land_with(host, known, &tables.landings, &range, node, likely)
}

/// Whether the node is an endpoint, or a port whose entries differ and lead on.
fn entries_differ_and_lead_on(
    host: &Host,
    children: &[Option<u32>],
    range: &Range,
    node: u32,
    likely: u8,
    d: &Decoder,
) -> bool
    requires here { node < length host.now.topo.now.nodes }
    requires children { AreAllChildren host.now.topo.now.nodes children.now }
    ensures { result ≡ (is_endpoint_at host.now.topo.now.nodes node
        || (are_distinct (entries_of d.now) && list_all (leads_on (as_system host.now) range.now node) (entries_of d.now))) }
{
    host.topo.is_endpoint(node)
        || (are_distinct(d) && entries_lead_on(host, children, range, node, likely, d))
}

/// Whether each target of the range's window lands on it, where the node is the landing of a bridge.
fn targets_land_with(
    host: &Host,
    known: &Known,
    landings: &[bool],
    range: &Range,
    node: u32,
    likely: u8,
) -> bool
    requires known { IsKnownAs (as_system host.now) range.now known.now }
    requires here { node < length host.now.topo.now.nodes }
    requires landings { AreLandings host.now.topo.now.nodes landings.now }
    ensures { result ≡ (not (is_bridge_landing host.now.topo.now.nodes node)
        || option_map_or (targets_land (as_system host.now) range.now) (find (lies_within range.now) host.now.windows.now) true) }
{
    if !landings[node as usize] {
        return true;
    }
    match window_of(host, range, known) {
        Some(w) => targets_land(host, range, w, likely),
        None => true,
    }
}

/// Whether no port stands at two of the entries that a decoder uses.
fn are_distinct(d: &Decoder) -> bool
    ensures { result ≡ are_distinct (entries_of d.now) }
{
    for i in 0..d.interleave_ways() {
        if stands_later(d, i) {
            return false;
        }
    }
    true
}

/// Whether the port at entry `i` stands at a later one, too.
fn stands_later(d: &Decoder, i: u8) -> bool
    requires { i < decoder_ways d.now }
    ensures { result ≡ list_any (λ port. port == entry_at d.now i)
        (map (entry_at d.now) (range_with_len (i + 1) (decoder_ways d.now - (i + 1)))) }
{
    let ways = d.interleave_ways();
    let port = d.entry_at(i);
    for j in i + 1..ways {
        if d.entry_at(j) == port {
            return true;
        }
    }
    false
}

/// Whether each entry of a port's decoder leads on.
fn entries_lead_on(
    host: &Host,
    children: &[Option<u32>],
    range: &Range,
    node: u32,
    likely: u8,
    d: &Decoder,
) -> bool
    requires here { node < length host.now.topo.now.nodes }
    requires children { AreAllChildren host.now.topo.now.nodes children.now }
    ensures { result ≡ list_all (leads_on (as_system host.now) range.now node) (entries_of d.now) }
{
    for i in 0..d.interleave_ways() {
        if !leads_on(host, children, range, node, d.entry_at(i), likely) {
            return false;
        }
    }
    true
}

/// Whether a child stands at a port, and lands on the range.
fn leads_on(
    host: &Host,
    children: &[Option<u32>],
    range: &Range,
    node: u32,
    port: u8,
    likely: u8,
) -> bool
    requires here { node < length host.now.topo.now.nodes }
    requires children { AreAllChildren host.now.topo.now.nodes children.now }
    ensures { result ≡ leads_on (as_system host.now) range.now node port }
{
    match child_at(host.topo, children, node, port) {
        Some(child) => lands_on(host, range, child, likely),
        None => false,
    }
}

/// Whether an address that comes to a node is first decoded at a node that serves the range.
fn lands_on(host: &Host, range: &Range, node: u32, likely: u8) -> bool
    requires here { node < length host.now.topo.now.nodes }
    ensures { result ≡ lands_on (as_system host.now) range.now node }
{
    match host.topo.landing(node) {
        Some(landing) => serves(host.image, range, landing, likely),
        None => false,
    }
}

/// Whether each target of a window is a bridge that lands on the range.
fn targets_land(host: &Host, range: &Range, w: &Window, likely: u8) -> bool
    ensures { result ≡ targets_land (as_system host.now) range.now w.now }
{
    let targets = w.targets();
    for uid in targets {
        if !target_lands(host, range, *uid, likely) {
            return false;
        }
    }
    true
}

/// Whether a UID is that of a bridge that lands on the range.
fn target_lands(host: &Host, range: &Range, uid: u32, likely: u8) -> bool
    ensures { result ≡ option_map_or (lands_on (as_system host.now) range.now) (bridge_with host.now.topo.now.nodes uid) false }
{
    match host.topo.bridge(uid) {
        Some(bridge) => lands_on(host, range, bridge, likely),
        None => false,
    }
}
