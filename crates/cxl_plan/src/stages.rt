//! What the decoders of the used nodes would have in any window, and their codes in one.

ghost use Rattle.std.specs.Prelude.{◌≡◌, ℕ, ◌+◌, ◌<◌, true, List, length, IfOk};
ghost use Rattle.cxl_topo.specs.declared.node.Node.{Node};
ghost use Rattle.cxl_legal.specs.Used.{is_used};
ghost use Rattle.cxl_plan.specs.inner.Uses.{tree_alone, AreUses, HasWays, code_at};
ghost use Rattle.cxl_plan.specs.inner.Stages.{stage_at, AreStages};

use crate::used::{Uses, place_of};
use crate::ways::{plan_code, planned_ways, used_above};
use cxl_enc::split;
use cxl_model::Request;
use cxl_topo::Topo;
use cxl_window::Window;
use std::alloc::{AllocError, Global};

/// What a used node's decoder would have in any window.
#[derive(Clone, Copy)]
pub struct Stage {
    /// The capability word of the node's decoder block.
    pub cap: u32,
    /// Whether the node is an endpoint.
    pub endpoint: bool,
    /// Whether the decoder would have one way.
    pub single: bool,
    /// How many address bits it would select on.
    pub bits: u8,
    /// How many the ports above it would select on, together.
    pub above: u8,
}

/// The stage of each used node. Takes memory.
pub(crate) fn stages(
    alloc: Global,
    topo: &Topo,
    request: &Request,
    uses: &Uses,
) -> Result<Vec<Stage>, AllocError>
    requires uses { AreUses topo.now.nodes request.now uses.now }
    requires ways { HasWays topo.now.nodes request.now }
    ensures { IfOk result (λ stages. AreStages topo.now.nodes request.now uses.now.nodes.items stages.items) }
{
    let mut stages = Vec::with_capacity(alloc, uses.nodes.len())?;
    for node in &uses.nodes {
        stages.push(stage_of(topo, request, uses, *node))?;
    }
    Ok(stages)
}

/// The stage of a used node.
fn stage_of(topo: &Topo, request: &Request, uses: &Uses, node: u32) -> Stage
    requires uses { AreUses topo.now.nodes request.now uses.now }
    requires ways { HasWays topo.now.nodes request.now }
    requires here { node < length topo.now.nodes }
    requires used { is_used (tree_alone topo.now.nodes) request.now node ≡ true }
    ensures { result ≡ stage_at topo.now.nodes request.now node }
{
    let own = topo.node(node);
    let ways = planned_ways(topo, request, uses, node);
    let above = used_above(topo, request, uses, node);
    Stage {
        cap: own.cap,
        endpoint: own.is_endpoint(),
        single: ways == 1,
        bits: split(ways).bits,
        above: above.bits as u8,
    }
}

/// The code that a decoder of this stage would have in a window. It may be one that no granularity has.
pub(crate) fn stage_code(stage: &Stage, request: &Request, w: &Window) -> u32
    ensures { (nodes : List Node) (n : ℕ) → stage.now ≡ stage_at nodes request.now n
        → result ≡ code_at nodes request.now w.now n }
{
    if stage.single {
        return 0;
    }
    let code = plan_code(request, w);
    if stage.endpoint {
        return u32::from(code);
    }
    code_below(code, split(w.ways()).bits, stage.above)
}

/// A code raised by the address bits that the window and the ports above select on.
fn code_below(code: u8, root: u8, above: u8) -> u32
    ensures { result ≡ code + root + above }
{
    u32::from(code) + u32::from(root) + u32::from(above)
}

/// The code that a used node's decoder would have in a window.
pub(crate) fn planned_code(
    topo: &Topo,
    request: &Request,
    uses: &Uses,
    stages: &[Stage],
    w: &Window,
    node: u32,
) -> u32
    requires uses { AreUses topo.now.nodes request.now uses.now }
    requires stages { AreStages topo.now.nodes request.now uses.now.nodes.items stages.now }
    requires here { node < length topo.now.nodes }
    requires used { is_used (tree_alone topo.now.nodes) request.now node ≡ true }
    ensures { result ≡ code_at topo.now.nodes request.now w.now node }
{
    stage_code(&stages[place_of(topo, request, uses, node)], request, w)
}
