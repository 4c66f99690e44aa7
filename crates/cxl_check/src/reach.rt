//! K11: what leads to a decoder.

ghost use Rattle.std.specs.Prelude.{◌≡◌, ◌<◌, ◌==◌, ◌&&◌, [], length};
ghost use Rattle.std.specs.List.{list_any};
ghost use Rattle.cxl_regs.specs.Reading.{has_range, entries_of, range_of};
ghost use Rattle.cxl_model.specs.Hosts.{as_system};
ghost use Rattle.cxl_model.specs.Rules.{lists, uid_above, is_targeted, keeps_reach};
ghost use Rattle.cxl_model.specs.System.{blocks_alone};
ghost use Rattle.cxl_check.specs.inner.Known.{IsKnownAs};

use crate::known::{Known, window_of};
use cxl_image::Image;
use cxl_model::Host;
use cxl_regs::{Decoder, Range};
use cxl_topo::{NodeKind, Parent, Topo};

/// K11 of a committed decoder: its node does not forward, and its decoding parent lists it for the range, or, where it has
/// none, the range's window targets its bridge.
pub(crate) fn keeps_reach(host: &Host, known: &Known, node: u32, likely: u8, d: &Decoder) -> bool
    requires known { IsKnownAs (as_system host.now) (range_of d.now) known.now }
    requires here { node < length host.now.topo.now.nodes }
    ensures { result ≡ keeps_reach (as_system host.now) node d.now }
{
    if host.topo.forwards(node) {
        return false;
    }
    let range = d.range();
    match host.topo.decoding_port(node) {
        Some(parent) => lists(host.image, &range, parent, likely),
        None => is_targeted(host, known, &range, node),
    }
}

/// Whether a committed decoder of the range lists this port.
fn lists(image: &Image, range: &Range, parent: Parent, likely: u8) -> bool
    ensures { result ≡ lists (blocks_alone image.now) range.now parent }
{
    if parent.node >= image.count() {
        return false;
    }
    let block = image.block(parent.node);
    if likely < block.count() && lists_in_range(&block.decoder(likely), range, parent.port) {
        return true;
    }
    for i in 0..block.count() {
        if lists_in_range(&block.decoder(i), range, parent.port) {
            return true;
        }
    }
    false
}

/// Whether a decoder is committed with the range and lists this port.
fn lists_in_range(d: &Decoder, range: &Range, port: u8) -> bool
    ensures { result ≡ (has_range range.now d.now && list_any (λ listed. listed == port) (entries_of d.now)) }
{
    d.has_range(range) && lists_port(d, port)
}

/// Whether a port stands at one of the entries that a decoder uses.
fn lists_port(d: &Decoder, port: u8) -> bool
    ensures { result ≡ list_any (λ listed. listed == port) (entries_of d.now) }
{
    for i in 0..d.interleave_ways() {
        if d.entry_at(i) == port {
            return true;
        }
    }
    false
}

/// Whether the range's window targets the bridge on the path of a node.
fn is_targeted(host: &Host, known: &Known, range: &Range, node: u32) -> bool
    requires known { IsKnownAs (as_system host.now) range.now known.now }
    requires here { node < length host.now.topo.now.nodes }
    ensures { result ≡ is_targeted (as_system host.now) range.now node }
{
    let Some(w) = window_of(host, range, known) else {
        return false;
    };
    match uid_above(host.topo, node) {
        Some(uid) => w.targets().contains(&uid),
        None => false,
    }
}

/// The UID of the bridge on the path of a node.
fn uid_above(topo: &Topo, node: u32) -> Option<u32>
    requires here { node < length topo.now.nodes }
    ensures { result ≡ uid_above topo.now.nodes node }
{
    let bridge = topo.path(node).nodes[0];
    match topo.node(bridge).kind {
        NodeKind::Bridge(uid) => Some(uid),
        NodeKind::Switch | NodeKind::Endpoint(_) => None,
    }
}
