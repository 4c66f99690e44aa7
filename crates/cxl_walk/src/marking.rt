//! Which nodes stand on the ways to a region's endpoints.

ghost use Rattle.std.specs.Prelude.{◌≡◌, ◌<◌, length, All, IfOk};
ghost use Rattle.cxl_model.specs.declared.found.Place.{Place};
ghost use Rattle.cxl_walk.specs.inner.Marks.{MarksWay, MarksWays, KeepsMarks};

use cxl_model::{Memory, Place};
use cxl_topo::{Topo, tree_laws};
use std::alloc::Global;

/// Marks by node: each node is marked that stands on the way to an endpoint of these spans. Takes memory.
pub(crate) fn marked_ways(alloc: Global, topo: &Topo, spans: &[Place]) -> Result<Vec<bool>, Memory>
    requires { All (λ (place : Place). place.endpoint < length topo.now.nodes) spans.now }
    ensures { IfOk result (λ marks. MarksWays topo.now.nodes marks.items spans.now) }
{
    let mut marks = vec![in alloc; false; topo.count() as usize]?;
    for place in spans {
        mark_way(topo, &mut marks, place.endpoint);
    }
    Ok(marks)
}

/// Marks a node and all that stand above it. What is marked stays so.
fn mark_way(topo: &Topo, marks: &mut Vec<bool>, node: u32)
    requires here { node < length topo.now.nodes }
    requires count { length marks.old.items ≡ length topo.now.nodes }
    ensures count { length marks.new.items ≡ length topo.now.nodes }
    ensures way { MarksWay topo.now.nodes marks.new.items node }
    ensures kept { KeepsMarks marks.old.items marks.new.items }
{
    tree_laws();
    let _count = topo.count();
    marks[node as usize] = true;
    if let Some(parent) = topo.node(node).parent {
        mark_way(topo, marks, parent.node);
    }
}
