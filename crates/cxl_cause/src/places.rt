//! The places of the first broken rule of an image, each with its cause.

ghost use Rattle.std.specs.Prelude.{◌≡◌, ◌<◌, ◌≢◌, ℕ, false, Some, length, IfOk, IsSome};
ghost use Rattle.cxl_window.specs.Windows.{AreMadeWith};
ghost use Rattle.cxl_image.specs.Images.{HasCapsOf};
ghost use Rattle.cxl_check.specs.Breaches.{AreFirstBreaches};
ghost use Rattle.cxl_model.specs.Hosts.{as_system};
ghost use Rattle.cxl_model.specs.System.{system_of, bridge_uids, decoder_at};
ghost use Rattle.cxl_cause.specs.Causes.{cause_at, range_cause, AreFirstCauses};

use crate::blocks::block_cause;
use crate::caps::caps_cause;
use crate::cause::Cause;
use crate::laws::causes_stand_where_rules_break;
use crate::reach::reach_cause;
use crate::targets::lead_cause;
use crate::ways::ways_cause;
use crate::windows::window_cause;
use cxl_check::{Breach, breaches};
use cxl_enc::Memory;
use cxl_image::Image;
use cxl_model::{Host, hosts_with_caps_are_systems};
use cxl_regs::Decoder;
use cxl_topo::Topo;
use cxl_window::Window;
use std::alloc::Global;

/// A place that breaks a rule, with the cause.
#[derive(Clone, Copy, PartialEq, Eq)]
pub struct CausedBreach {
    pub breach: Breach,
    pub cause: Cause,
}

/// All places that break the rule which the image breaks first, as `breaches` of `cxl_check` tells them, each with its cause; none
/// exactly where the image is accepted. The image may be of any blocks. (The rules K1 to K12 are this project's.) Takes memory.
pub fn causes(
    alloc: Global,
    image: &Image,
    topo: &Topo,
    windows: &[Window],
) -> Result<Vec<CausedBreach>, Memory>
    requires { AreMadeWith windows.now (bridge_uids topo.now.nodes) }
    ensures { IfOk result (λ causes. AreFirstCauses (system_of image.now topo.now windows.now) causes.items) }
{
    let found = breaches(alloc, image, topo, windows)?;
    let host = Host {
        image,
        topo,
        windows,
    };
    with_causes(alloc, &host, &found)
}

/// The causes of these places.
fn with_causes(alloc: Global, host: &Host, found: &[Breach]) -> Result<Vec<CausedBreach>, Memory>
    requires made { AreMadeWith host.now.windows.now (bridge_uids host.now.topo.now.nodes) }
    requires found { AreFirstBreaches (as_system host.now) found.now }
    ensures { IfOk result (λ causes. AreFirstCauses (as_system host.now) causes.items) }
{
    causes_stand_where_rules_break();
    hosts_with_caps_are_systems();
    let _count = host.topo.count();
    let _blocks = host.image.count();
    let mut causes = Vec::new(alloc);
    for breach in found {
        if let Some(cause) = cause_of(host, breach) {
            causes.push(CausedBreach {
                breach: *breach,
                cause,
            })?;
        }
    }
    Ok(causes)
}

/// Why a decoder breaks a rule, and nothing where it keeps it. Past K1, the image has the topology's capability words.
pub fn cause_of(host: &Host, place: &Breach) -> Option<Cause>
    requires { place.now.rule ≢ 1 → HasCapsOf host.now.image.now host.now.topo.now.nodes }
    ensures { result ≡ cause_at (as_system host.now) place.now.rule place.now.node place.now.decoder }
{
    if place.rule == 1 {
        return caps_cause(host, place.node, place.decoder);
    }
    if place.node >= host.image.count() {
        return None;
    }
    if place.rule < 9 {
        return block_cause(host, place.rule, place.node, place.decoder);
    }
    let block = host.image.block(place.node);
    if place.decoder >= block.count() {
        return None;
    }
    let d = block.decoder(place.decoder);
    if !d.committed {
        return None;
    }
    range_cause(host, place, &d)
}

/// The cause of one of the rules K9 to K12 at a committed decoder.
fn range_cause(host: &Host, place: &Breach, d: &Decoder) -> Option<Cause>
    requires here { place.now.node < length host.now.topo.now.nodes }
    requires there { decoder_at (as_system host.now) place.now.node place.now.decoder ≡ Some d.now }
    ensures { result ≡ range_cause (as_system host.now) place.now.rule place.now.node place.now.decoder d.now }
{
    match place.rule {
        9 => window_cause(host, place.node, place.decoder, d),
        10 => lead_cause(host, place.node, d),
        11 => reach_cause(host, place.node, d),
        12 => ways_cause(host, place.node, place.decoder, d),
        _ => None,
    }
}
