//! The way of an address from a bridge down, node by node.

ghost use Rattle.std.specs.Prelude.{◌≡◌, ◌-◌, ◌<◌, ◌≤◌, length, take, drop, replicate, IfOk, IfErr};
ghost use Rattle.cxl_topo.specs.Faults.{IsTree};
ghost use Rattle.cxl_image.specs.Images.{HasCapsOf};
ghost use Rattle.cxl_model.specs.Chain.{Arrives};
ghost use Rattle.cxl_walk.specs.Routes.{no_step};
ghost use Rattle.cxl_walk.specs.inner.Calls.{Leads, Fails, reached};

use crate::moves::{Next, ReachedByte, move_at};
use cxl_image::Image;
use cxl_model::{Miss, Step};
use cxl_topo::{Topo, tree_laws};

const NO_STEP: Step = Step {
    node: 0,
    decoder: 0,
    entry: 0,
};

/// The way of an address from a node down to a byte: the first `len` of `steps`, the others being zero.
#[derive(Clone, Copy)]
pub(crate) struct Way {
    pub(crate) len: u8,
    pub(crate) steps: [Step; 5],
    pub(crate) byte: ReachedByte,
    ghost few: { len ≤ 5 },
}

/// The way of an address from node `top` down.
pub(crate) fn way_from(image: &Image, topo: &Topo, top: u32, h: u64) -> Result<Way, Miss>
    requires tree { IsTree topo.now.nodes }
    requires caps { HasCapsOf image.now topo.now.nodes }
    requires here { top < length topo.now.nodes }
    ensures way { IfOk result
        (λ way. Leads image.now topo.now h top (take way.len way.steps) (Arrives (reached way.byte))) }
    ensures zeros { IfOk result (λ way. drop way.len way.steps ≡ replicate (5 - way.len) no_step) }
    ensures miss { IfErr result (λ miss. Fails image.now topo.now h top miss) }
{
    // A child comes after its parent, and no more than five ports stand above a node.
    tree_laws();
    let mut at = top;
    let mut len: u8 = 0;
    let mut steps = [NO_STEP; 5];
    'down: loop {
        match move_at(image, topo, at, h)? {
            Next::Forwards(child) => at = child,
            Next::Steps(step, child) => {
                steps[len as usize] = step;
                len += 1;
                at = child;
            }
            Next::Arrives(byte) => return Ok(Way { len, steps, byte }),
        }
    }
}
