//! What a node could give by its registers, in one window.

ghost use Rattle.std.specs.Prelude.{◌≡◌, ◌<◌, ◌≤◌, nat_le, ◌&&◌, true, false, length};
ghost use Rattle.cxl_enc.specs.Codes.{bits_of};
ghost use Rattle.cxl_enc.specs.Caps.{is_target_count};
ghost use Rattle.cxl_topo.specs.Tree.{is_endpoint_at};
ghost use Rattle.cxl_regs.specs.Rules.{select_ok};
ghost use Rattle.cxl_span.specs.Allotting.{all_committed};
ghost use Rattle.cxl_model.specs.Hosts.{as_system};
ghost use Rattle.cxl_model.specs.System.{decoders_at};
ghost use Rattle.cxl_model.specs.Accepted.{IsOrderlySystem};
ghost use Rattle.cxl_pick.specs.Picking.{is_open, has_room, can_serve_itself};
ghost use Rattle.cxl_pick.specs.inner.Wanted.{HasWaysAndSize};
ghost use Rattle.cxl_pick.specs.inner.Gifts.{can_lead};

use crate::terms::{port_code, share, wanted_code};
use cxl_enc::{split, target_count};
use cxl_legal::{can_have_ways, is_full, last_end};
use cxl_model::Host;
use cxl_pick::Want;
use cxl_regs::select_ok;
use cxl_span::allot;
use cxl_topo::capacity_at;
use cxl_window::Window;

/// Whether a decoder of the node is left, and all that is committed in it ends at or below `start`.
pub(crate) fn is_open(host: &Host, start: u64, node: u32) -> bool
    requires ready { IsOrderlySystem (as_system host.now) }
    requires here { node < length host.now.topo.now.nodes }
    ensures { result ≡ is_open (as_system host.now) start node }
{
    let block = host.image.block(node);
    !is_full(block) && last_end(block) <= start
}

// ---- endpoints

/// Whether an endpoint could be one of the region's.
pub(crate) fn can_serve_itself(host: &Host, want: &Want, w: &Window, start: u64, node: u32) -> bool
    requires ready { IsOrderlySystem (as_system host.now) }
    requires sound { HasWaysAndSize want.now }
    requires endpoint { is_endpoint_at host.now.topo.now.nodes node ≡ true }
    requires here { node < length host.now.topo.now.nodes }
    ensures { result ≡ can_serve_itself (as_system host.now) want.now w.now start node }
{
    let cap = host.topo.node(node).cap;
    is_open(host, start, node)
        && can_have_ways(cap, want.ways)
        && select_ok(cap, wanted_code(want, w), split(want.ways).bits)
        && has_room(host, want, node)
}

/// Whether an endpoint with a decoder left has room for its share after its last committed span.
fn has_room(host: &Host, want: &Want, node: u32) -> bool
    requires ready { IsOrderlySystem (as_system host.now) }
    requires sound { HasWaysAndSize want.now }
    requires endpoint { is_endpoint_at host.now.topo.now.nodes node ≡ true }
    requires here { node < length host.now.topo.now.nodes }
    requires left { all_committed (decoders_at (as_system host.now) node) ≡ false }
    ensures { result ≡ has_room (as_system host.now) want.now node }
{
    let capacity = capacity_at(host.topo, node);
    match allot(
        host.image.block(node),
        capacity.ram,
        capacity.pmem,
        want.kind,
        share(want),
    ) {
        Ok(_) => true,
        Err(_) => false,
    }
}

// ---- ports

/// Whether a port that is open could lead to `m` endpoints by `u` of its children, where so many have something to give.
pub(crate) fn can_lead(
    host: &Host,
    want: &Want,
    w: &Window,
    node: u32,
    m: u8,
    willing: u16,
    u: u8,
) -> bool
    requires here { node < length host.now.topo.now.nodes }
    requires some { 0 < m }
    requires few { m ≤ 16 }
    requires count { is_target_count u ≡ true }
    ensures { result ≡ can_lead (as_system host.now) want.now w.now node m willing u }
{
    let cap = host.topo.node(node).cap;
    m % u == 0
        && u <= target_count(cap)
        && u16::from(u) <= willing
        && (u == 1 || selects_among(cap, port_code(want, w, m), u))
}

/// Whether a port with this capability word selects by a code among its ports.
fn selects_among(cap: u32, code: u32, ports: u8) -> bool
    requires { is_target_count ports ≡ true }
    ensures { result ≡ (nat_le code 6 && select_ok cap code (bits_of ports)) }
{
    code <= 6 && select_ok(cap, code as u8, split(ports).bits)
}
