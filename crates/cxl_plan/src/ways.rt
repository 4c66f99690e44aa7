//! The ways that a used node's decoder would have, and the code of the region.

ghost use Rattle.std.specs.Prelude.{◌≡◌, ◌<◌, ◌≤◌, ◌^◌, true, length, IsTrue};
ghost use Rattle.cxl_enc.specs.Codes.{is_ways};
ghost use Rattle.cxl_model.specs.Plans.{plan_code};
ghost use Rattle.cxl_legal.specs.Used.{request_ways, is_used};
ghost use Rattle.cxl_plan.specs.inner.Uses.{tree_alone, AreUses, HasWays, ways_at, ways_above_at, bits_above_at};

use crate::used::{Uses, ports_of};
use cxl_enc::split;
use cxl_model::{Above, Request};
use cxl_topo::{Topo, tree_laws};
use cxl_window::Window;

/// The ways that a used node's decoder would have.
pub(crate) fn planned_ways(topo: &Topo, request: &Request, uses: &Uses, node: u32) -> u8
    requires uses { AreUses topo.now.nodes request.now uses.now }
    requires ways { HasWays topo.now.nodes request.now }
    requires here { node < length topo.now.nodes }
    requires used { is_used (tree_alone topo.now.nodes) request.now node ≡ true }
    ensures value { result ≡ ways_at topo.now.nodes request.now node }
    ensures known { IsTrue (is_ways result) }
{
    if topo.is_endpoint(node) {
        request.endpoints.items().len() as u8
    } else {
        ports_of(topo, request, uses, node).len() as u8
    }
}

/// The decoders that the ports above a used node would have, together.
pub(crate) fn used_above(topo: &Topo, request: &Request, uses: &Uses, node: u32) -> Above
    requires uses { AreUses topo.now.nodes request.now uses.now }
    requires ways { HasWays topo.now.nodes request.now }
    requires here { node < length topo.now.nodes }
    requires used { is_used (tree_alone topo.now.nodes) request.now node ≡ true }
    ensures ways { result.ways ≡ ways_above_at topo.now.nodes request.now node }
    ensures bits { result.bits ≡ bits_above_at topo.now.nodes request.now node }
    ensures some { 0 < result.ways }
    ensures few_ways { result.ways ≤ 2 ^ 20 }
    ensures few_bits { result.bits ≤ 20 }
{
    tree_laws();
    let _count = topo.count();
    let Some(parent) = topo.node(node).parent else {
        return Above { ways: 1, bits: 0 };
    };
    let above = used_above(topo, request, uses, parent.node);
    let ways = planned_ways(topo, request, uses, parent.node);
    Above {
        ways: u32::from(ways) * above.ways,
        bits: u32::from(split(ways).bits) + above.bits,
    }
}

/// The code of the region in a window: the window's where that has more than one way, else the stated one. 0 at one
/// way.
pub(crate) fn plan_code(request: &Request, w: &Window) -> u8
    ensures { result ≡ plan_code request.now w.now (request_ways request.now) }
{
    if request.endpoints.items().len() == 1 {
        return 0;
    }
    if w.ways() > 1 {
        return w.gran();
    }
    match request.gran {
        Some(code) => code,
        None => w.gran(),
    }
}
