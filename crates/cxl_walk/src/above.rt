//! The steps of a slot on the way from its bridge down to a node, by a region's own decoders: no register is read.

ghost use Rattle.std.specs.Prelude.{◌≡◌, ℕ, ◌-◌, ◌/◌, ◌^◌, ◌<◌, ◌≤◌, length, take, drop, replicate};
ghost use Rattle.cxl_enc.specs.Codes.{bits_of};
ghost use Rattle.cxl_topo.specs.Tree.{ports_above};
ghost use Rattle.cxl_window.specs.Fields.{WindowFields};
ghost use Rattle.cxl_model.specs.declared.found.Found.{Found};
ghost use Rattle.cxl_model.specs.System.{System};
ghost use Rattle.cxl_model.specs.Regions.{region_range, slots_an_entry};
ghost use Rattle.cxl_model.specs.Dealing.{slot_steps};
ghost use Rattle.cxl_walk.specs.Keeping.{own_decoders};
ghost use Rattle.cxl_walk.specs.Routes.{no_step};
ghost use Rattle.cxl_walk.specs.inner.Slots.{stepped};

use crate::own::Own;
use crate::owned::own_at;
use crate::steps::StepsAbove;
use cxl_model::Step;
use cxl_topo::{Topo, tree_laws};

/// No step yet of a slot of which so much is left.
pub(crate) fn no_steps(rest: u32) -> StepsAbove
    ensures len { result.len ≡ 0 }
    ensures steps { result.steps ≡ replicate 5 no_step }
    ensures rest { result.rest ≡ rest }
{
    let none = Step {
        node: 0,
        decoder: 0,
        entry: 0,
    };
    StepsAbove {
        len: 0,
        steps: [none; 5],
        rest,
    }
}

/// Puts the steps of a slot above a node behind none. What is left of the slot is at first its number over `root`, the ways of
/// the window but for a factor of three.
pub(crate) fn put_steps(
    above: &mut StepsAbove,
    topo: &Topo,
    own: &[Own],
    likely: &[usize],
    root: u32,
    slot: u8,
    node: u32,
)
    requires here { node < length topo.now.nodes }
    requires own { (s : System) × (found : Found) × (own.now ≡ own_decoders s found) × (s.nodes ≡ topo.now.nodes) }
    requires none { above.old.len ≡ 0 }
    requires empty { above.old.steps ≡ replicate 5 no_step }
    requires whole { above.old.rest ≡ slot / root }
    ensures few { above.new.len ≤ length (ports_above topo.now.nodes node) }
    ensures room { above.new.len ≤ 5 }
    ensures long { length above.new.steps ≡ 5 }
    ensures zeros { drop above.new.len above.new.steps ≡ replicate (5 - above.new.len) no_step }
    ensures steps { (s : System) (w : WindowFields) (found : Found) → s.nodes ≡ topo.now.nodes
        → own.now ≡ own_decoders s found → root ≡ 2 ^ bits_of w.ways
        → take above.new.len above.new.steps ≡ slot_steps s w (region_range found) slot node }
    ensures rest { (s : System) (w : WindowFields) (found : Found) → s.nodes ≡ topo.now.nodes
        → own.now ≡ own_decoders s found → root ≡ 2 ^ bits_of w.ways
        → above.new.rest ≡ slot / slots_an_entry s w (region_range found) node }
{
    tree_laws();
    let _count = topo.count();
    let Some(parent) = topo.node(node).parent else {
        return;
    };
    put_steps(above, topo, own, likely, root, slot, parent.node);
    match own_at(own, likely, parent.node) {
        Some(port) => put_step(above, port),
        None => {}
    }
}

/// Puts one step more, at a port.
fn put_step(above: &mut StepsAbove, port: Own)
    requires room { above.old.len < 5 }
    requires some { 0 < port.ways }
    ensures { above.new ≡ stepped above.old port }
{
    let ways = u32::from(port.ways);
    above.steps[above.len as usize] = Step {
        node: port.node,
        decoder: port.index,
        entry: (above.rest % ways) as u8,
    };
    above.len += 1;
    above.rest /= ways;
}
