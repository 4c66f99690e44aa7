//! The walk of a host address, by registers, as far as it leads.

ghost use Rattle.std.specs.Prelude.{◌≡◌, ◌-◌, ◌<◌, [], List, Some, length, drop, replicate, IfSome, IfNone};
ghost use Rattle.cxl_topo.specs.Faults.{IsTree};
ghost use Rattle.cxl_window.specs.Windows.{AreMadeWith};
ghost use Rattle.cxl_image.specs.Images.{HasCapsOf};
ghost use Rattle.cxl_model.specs.System.{bridge_uids, system_of};
ghost use Rattle.cxl_model.specs.Chain.{Chain};
ghost use Rattle.cxl_walk.specs.Routes.{no_step};
ghost use Rattle.cxl_walk.specs.inner.Calls.{Leads};
ghost use Rattle.cxl_regs.specs.Registers.{Registers};
ghost use Rattle.cxl_trace.specs.declared.trace.Trace.{Trace};
ghost use Rattle.cxl_trace.specs.Traces.{IsTraceOf, SetsOut, IsUnheld, TellSame, walk_end, trace_steps, traced_end};

use crate::trace::{Outset, Trace, WalkEnd};
use crate::turns::{Turn, turn_at};
use cxl_image::Image;
use cxl_model::{Miss, Step};
use cxl_span::ranges_rise;
use cxl_topo::{Topo, tree_laws};
use cxl_window::{Window, positions, slot_of};

const NO_STEP: Step = Step {
    node: 0,
    decoder: 0,
    entry: 0,
};

/// The walk of a host address by the decoders of an image, accepted or not: where it sets out, each step, and the byte to
/// which it comes or the first place that leads no further. (CXL HDM decoders; that a node with a single port may forward,
/// and which place is named, is this project's rule.) There are five steps at the most, and the places past them are zero.
pub fn walk(image: &Image, topo: &Topo, windows: &[Window], h: u64) -> Trace
    requires caps { HasCapsOf image.now topo.now.nodes }
    requires made { AreMadeWith windows.now (bridge_uids topo.now.nodes) }
    ensures trace { IsTraceOf (system_of image.now topo.now windows.now) h result }
    // The address has no other trace.
    ensures only { (other : Trace) → IsTraceOf (system_of image.now topo.now windows.now) h other → TellSame result other }
    // Its end is that of the address's chain.
    ensures chain { Chain (system_of image.now topo.now windows.now) h (traced_end result) }
    ensures zeros { drop result.len result.steps ≡ replicate (5 - result.len) no_step }
{
    ranges_rise();
    trace_of(image, topo, windows, h)
}

/// The same, by the one trace that is found.
fn trace_of(image: &Image, topo: &Topo, windows: &[Window], h: u64) -> Trace
    requires caps { HasCapsOf image.now topo.now.nodes }
    requires made { AreMadeWith windows.now (bridge_uids topo.now.nodes) }
    ensures trace { IsTraceOf (system_of image.now topo.now windows.now) h result }
    ensures zeros { drop result.len result.steps ≡ replicate (5 - result.len) no_step }
{
    let _count = topo.count();
    let Some(outset) = outset_of(topo, windows, h) else {
        return Trace {
            outset: None,
            len: 0,
            steps: [NO_STEP; 5],
            end: WalkEnd::Lost(Miss::NoWindow),
        };
    };
    trace_from(image, topo, outset, h)
}

/// Where the walk of an address sets out.
fn outset_of(topo: &Topo, windows: &[Window], h: u64) -> Option<Outset>
    requires made { AreMadeWith windows.now (bridge_uids topo.now.nodes) }
    ensures some { IfSome result (λ outset. (blocks : List Registers) → SetsOut (system_of blocks topo.now windows.now) h outset) }
    ensures here { IfSome result (λ outset. outset.bridge < length topo.now.nodes) }
    ensures none { IfNone result (IsUnheld (system_of [] topo.now windows.now) h) }
{
    positions();
    let count = topo.count();
    for window in windows {
        if let Some(position) = slot_of(window, h) {
            // The windows were made with the tree's bridges, so this is one of its nodes.
            let uid = window.targets()[position as usize];
            let bridge = topo.bridge(uid).unwrap();
            prove!(bridge < count);
            return Some(Outset {
                window: window.index(),
                position,
                bridge,
            });
        }
    }
    None
}

/// The trace of an address that sets out there.
fn trace_from(image: &Image, topo: &Topo, outset: Outset, h: u64) -> Trace
    requires tree { IsTree topo.now.nodes }
    requires caps { HasCapsOf image.now topo.now.nodes }
    requires here { outset.bridge < length topo.now.nodes }
    ensures outset { result.outset ≡ Some outset }
    ensures walk { Leads image.now topo.now h outset.bridge (trace_steps result) (walk_end result.end) }
    ensures zeros { drop result.len result.steps ≡ replicate (5 - result.len) no_step }
{
    // A child comes after its parent, and no more than five ports stand above a node.
    tree_laws();
    let mut at = outset.bridge;
    let mut len: u8 = 0;
    let mut steps = [NO_STEP; 5];
    'down: loop {
        match turn_at(image, topo, at, h) {
            Turn::Down(child) => at = child,
            Turn::By(step, child) => {
                steps[len as usize] = step;
                len += 1;
                at = child;
            }
            Turn::Ends(end) => {
                return Trace {
                    outset: Some(outset),
                    len,
                    steps,
                    end,
                };
            }
        }
    }
}
