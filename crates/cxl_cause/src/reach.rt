//! K11: why nothing leads to a decoder.

ghost use Rattle.std.specs.Prelude.{◌≡◌, ◌<◌, ◌==◌, ◌&&◌, [], length, unwrap_or};
ghost use Rattle.std.specs.List.{list_any};
ghost use Rattle.std.specs.Option.{option_copied};
ghost use Rattle.cxl_regs.specs.Reading.{has_range, entries_of};
ghost use Rattle.cxl_model.specs.Hosts.{as_system};
ghost use Rattle.cxl_model.specs.Rules.{lists, uid_above, is_targeted};
ghost use Rattle.cxl_model.specs.System.{blocks_alone};
ghost use Rattle.cxl_cause.specs.RangeCauses.{parent_cause, bridge_cause, reach_cause};

use crate::cause::Cause;
use crate::lookups::{serves, window_for};
use cxl_image::Image;
use cxl_model::Host;
use cxl_regs::{Decoder, Range};
use cxl_topo::{NodeKind, Parent, Topo};

/// The cause of K11 at a committed decoder.
pub(crate) fn reach_cause(host: &Host, node: u32, d: &Decoder) -> Option<Cause>
    requires { node < length host.now.topo.now.nodes }
    ensures { result ≡ reach_cause (as_system host.now) node d.now }
{
    if host.topo.forwards(node) {
        return Some(Cause::Forwards);
    }
    let range = d.range();
    match host.topo.decoding_port(node) {
        Some(parent) => parent_cause(host, &range, parent),
        None => bridge_cause(host, &range, node),
    }
}

/// Why the decoding parent does not list the port for the range.
fn parent_cause(host: &Host, range: &Range, parent: Parent) -> Option<Cause>
    ensures { result ≡ parent_cause (as_system host.now) range.now parent }
{
    let port = parent.port;
    let parent_node = parent.node;
    if lists(host.image, range, parent) {
        return None;
    }
    if serves(host.image, range, parent_node) {
        return Some(Cause::ParentDoesNotList {
            parent: parent_node,
            port,
        });
    }
    Some(Cause::ParentLacksRange {
        parent: parent_node,
    })
}

/// Whether a committed decoder of the range lists this port.
fn lists(image: &Image, range: &Range, parent: Parent) -> bool
    ensures { result ≡ lists (blocks_alone image.now) range.now parent }
{
    if parent.node >= image.count() {
        return false;
    }
    let block = image.block(parent.node);
    for i in 0..block.count() {
        if lists_in_range(&block.decoder(i), range, parent.port) {
            return true;
        }
    }
    false
}

/// Whether a decoder is committed with the range and lists this port.
fn lists_in_range(d: &Decoder, range: &Range, port: u8) -> bool
    ensures { result ≡ (has_range range.now d.now && list_any (λ listed. listed == port) (entries_of d.now)) }
{
    d.has_range(range) && lists_port(d, port)
}

/// Whether a port stands at one of the entries that a decoder uses.
fn lists_port(d: &Decoder, port: u8) -> bool
    ensures { result ≡ list_any (λ listed. listed == port) (entries_of d.now) }
{
    for i in 0..d.interleave_ways() {
        if d.entry_at(i) == port {
            return true;
        }
    }
    false
}

/// Why the range's window does not target the bridge on the path of a node.
fn bridge_cause(host: &Host, range: &Range, node: u32) -> Option<Cause>
    requires { node < length host.now.topo.now.nodes }
    ensures { result ≡ bridge_cause (as_system host.now) range.now node }
{
    let Some(w) = window_for(host.windows, range) else {
        return Some(Cause::NoWindow);
    };
    let window = w.index();
    match uid_above(host.topo, node) {
        Some(uid) if w.targets().contains(&uid) => None,
        Some(uid) => Some(Cause::NotTargeted { window, uid }),
        None => Some(Cause::NotTargeted { window, uid: 0 }),
    }
}

/// The UID of the bridge on the path of a node.
fn uid_above(topo: &Topo, node: u32) -> Option<u32>
    requires here { node < length topo.now.nodes }
    ensures { result ≡ uid_above topo.now.nodes node }
{
    let bridge = topo.path(node).nodes[0];
    match topo.node(bridge).kind {
        NodeKind::Bridge(uid) => Some(uid),
        NodeKind::Switch | NodeKind::Endpoint(_) => None,
    }
}
