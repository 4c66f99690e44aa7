//! The endpoints of a topology, and how they are let decode.

ghost use Rattle.std.specs.Prelude.{◌≡◌, ◌⊎◌, ◌<◌, ◌≤◌, [], length, All, IfOk, OnOk, OnErr};
ghost use Rattle.cxl_enc.specs.Faults.{HasCause, LeavesCount};
ghost use Rattle.cxl_regs.specs.Blocks.{IsPlace};
ghost use Rattle.cxl_bus.specs.Failed.{HasFailed, fresh};
ghost use Rattle.cxl_bus.specs.Trail.{blocks_sent, trail_with};
ghost use Rattle.cxl_opening.specs.Opening.{endpoints_in, enabling, ArePoweredOn, empty_media};
ghost use Rattle.cxl_opening.specs.Opened.{StopsEnabling};

use cxl_bus::Regs;
use cxl_enc::{Failed, Memory};
use cxl_image::Image;
use cxl_media::Media;
use cxl_regs::writes_keep_places;
use cxl_topo::Topo;
use std::alloc::Global;

/// What a write to an endpoint's global control holds to enable decoding, and its offset there. (CXL HDM decoder global
/// control.)
const DECODE: u32 = 2;

const GLOBAL_CONTROL: u32 = 4;

/// The endpoints by number. Takes memory.
fn endpoints_of(alloc: Global, topo: &Topo) -> Result<Vec<u32>, Memory>
    ensures { IfOk result (λ endpoints. endpoints.items ≡ endpoints_in topo.now.nodes) }
{
    let endpoints = (0..topo.count())
        .filter(|node| topo.is_endpoint(*node))
        .collect(alloc)?;
    Ok(endpoints)
}

/// Powers registers and media on, and tells the endpoints that are to decode then. Takes memory.
pub fn powered_on<R: Regs, M: Media>(
    alloc: Global,
    topo: &Topo,
    start: &Image,
    regs: &mut R,
    media: &mut M,
) -> Result<Vec<u32>, Memory>
    ensures endpoints { IfOk result (λ endpoints. endpoints.items ≡ endpoints_in topo.now.nodes) }
    ensures powered { OnOk result (ArePoweredOn start.now (R.state regs.old) (R.state regs.new)
        × (M.state media.new ≡ empty_media topo.now.frames)) }
    // After want of memory each is as before, or as powering it on left it.
    ensures memory { OnErr result
        (((R.state regs.new ≡ R.state regs.old) ⊎ ArePoweredOn start.now (R.state regs.old) (R.state regs.new))
        × ((M.state media.new ≡ M.state media.old) ⊎ (M.state media.new ≡ empty_media topo.now.frames))) }
    ensures counts { (R.state regs.old).faults ≤ (R.state regs.new).faults }
    ensures alone { (R.state regs.new).counts_failures_alone ≡ (R.state regs.old).counts_failures_alone }
    // A fault is not swallowed, nor hidden in want of memory.
    ensures unswallowed { OnOk result
        (LeavesCount (R.state regs.old).counts_failures_alone (R.state regs.old).faults (R.state regs.new).faults) }
    ensures unhidden { OnErr result
        (LeavesCount (R.state regs.old).counts_failures_alone (R.state regs.old).faults (R.state regs.new).faults) }
    ensures unfailed { OnOk result (HasFailed (fresh (R.state regs.old)) (R.state regs.new) []) }
{
    let endpoints = endpoints_of(alloc, topo)?;
    regs.power_on(alloc, start.blocks())?;
    media.power_on(alloc, topo.frames())?;
    Ok(endpoints)
}

/// The image in which these endpoints decode.
pub fn enabled(mut image: Image, endpoints: &[u32]) -> Image
    requires { All (λ node. node < length image) endpoints.now }
    ensures { result ≡ blocks_sent image (enabling endpoints.now) }
{
    for node in endpoints {
        image.write32(*node, GLOBAL_CONTROL, DECODE);
    }
    image
}

/// Lets these endpoints decode, one after the other, each by one word; or until the bus fails, and then those before
/// the fault decode.
pub fn enable_endpoints<R: Regs>(endpoints: &[u32], regs: &mut R) -> Result<(), Failed>
    requires { All (λ node. IsPlace (R.state regs.old).blocks node 4) endpoints.now }
    ensures blocks { OnOk result ((R.state regs.new).blocks ≡ blocks_sent (R.state regs.old).blocks (enabling endpoints.now)) }
    ensures words { OnOk result ((R.state regs.new).trail ≡ trail_with (R.state regs.old).trail (enabling endpoints.now)) }
    ensures stopped { OnErr result (StopsEnabling endpoints.now (R.state regs.old) (R.state regs.new)) }
    ensures cause { HasCause result (R.state regs.old).faults (R.state regs.new).faults }
    ensures counts { (R.state regs.old).faults ≤ (R.state regs.new).faults }
    ensures alone { (R.state regs.new).counts_failures_alone ≡ (R.state regs.old).counts_failures_alone }
    // A fault is not swallowed.
    ensures unswallowed { OnOk result
        (LeavesCount (R.state regs.old).counts_failures_alone (R.state regs.old).faults (R.state regs.new).faults) }
    ensures unfailed { OnOk result (HasFailed (R.state regs.old) (R.state regs.new) []) }
{
    writes_keep_places();
    for node in endpoints {
        regs.write32(*node, GLOBAL_CONTROL, DECODE)?;
    }
    Ok(())
}
