//! The way of a host address down to a device byte, by registers.

ghost use Rattle.std.specs.Prelude.{◌≡◌, ◌-◌, ◌<◌, length, drop, replicate, IfOk, IfErr};
ghost use Rattle.cxl_window.specs.Windows.{AreMadeWith};
ghost use Rattle.cxl_image.specs.Images.{HasCapsOf};
ghost use Rattle.cxl_model.specs.System.{bridge_uids};
ghost use Rattle.cxl_model.specs.Chain.{ChainEnd, Chain, Routed, Missed};
ghost use Rattle.cxl_model.specs.System.{system_of};
ghost use Rattle.cxl_walk.specs.Routes.{chain_end_of, routing_of, no_step};

use crate::route::Route;
use crate::target::target_of;
use crate::way::way_from;
use cxl_image::Image;
use cxl_model::{Miss, chains_have_one_end};
use cxl_topo::Topo;
use cxl_window::Window;

/// The way of a host address down to a byte of a device, or the first place on it that leads no further. (CXL HDM
/// decoders; that a node with a single port may forward, and which place is named, is this project's rule.) A route
/// has five steps at the most, and the places past them are zero.
pub fn down(image: &Image, topo: &Topo, windows: &[Window], h: u64) -> Result<Route, Miss>
    requires caps { HasCapsOf image.now topo.now.nodes }
    requires made { AreMadeWith windows.now (bridge_uids topo.now.nodes) }
    ensures chain { Chain (system_of image.now topo.now windows.now) h (chain_end_of result) }
    // The address's chain has no other end.
    ensures only { (outcome : ChainEnd) → Chain (system_of image.now topo.now windows.now) h outcome
        → outcome ≡ chain_end_of result }
    ensures zeros { IfOk result
        (λ route. drop route.len route.steps ≡ replicate (5 - route.len) no_step) }
{
    chains_have_one_end();
    lead(image, topo, windows, h)
}

/// The same, by the one end that is found.
fn lead(image: &Image, topo: &Topo, windows: &[Window], h: u64) -> Result<Route, Miss>
    requires caps { HasCapsOf image.now topo.now.nodes }
    requires made { AreMadeWith windows.now (bridge_uids topo.now.nodes) }
    ensures route { IfOk result
        (λ route. Chain (system_of image.now topo.now windows.now) h (Routed (routing_of route))) }
    ensures zeros { IfOk result
        (λ route. drop route.len route.steps ≡ replicate (5 - route.len) no_step) }
    ensures miss { IfErr result
        (λ miss. Chain (system_of image.now topo.now windows.now) h (Missed miss)) }
{
    let Some(target) = target_of(windows, h) else {
        return Err(Miss::NoWindow);
    };
    // The windows were made with the tree's bridges, so this is one of its nodes.
    let bridge = topo.bridge(target.uid).unwrap();
    let count = topo.count();
    prove!(bridge < count);
    let way = way_from(image, topo, bridge, h)?;
    let steps = way.steps;
    Ok(Route {
        window: target.window,
        position: target.position,
        base: way.byte.base,
        len: way.len,
        steps,
        endpoint: way.byte.endpoint,
        decoder: way.byte.decoder,
        dpa: way.byte.dpa,
    })
}
