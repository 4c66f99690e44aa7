//! Whether each target bridge of a window gives something.

ghost use Rattle.std.specs.Prelude.{◌≡◌, ℕ, ◌+◌, ◌/◌, ◌%◌, ◌<◌, ◌≤◌, map, option_and_then, is_some, true, Some, IfSome};
ghost use Rattle.cxl_enc.specs.Codes.{is_ways};
ghost use Rattle.cxl_enc.specs.Limits.{address_limit};
ghost use Rattle.cxl_topo.specs.declared.node.Parent.{Parent};
ghost use Rattle.cxl_topo.specs.Tree.{parent_of, bridge_with};
ghost use Rattle.cxl_model.specs.Hosts.{as_system};
ghost use Rattle.cxl_model.specs.Accepted.{IsOrderlySystem};
ghost use Rattle.cxl_pick.specs.Picking.{all_given, can_take, given_in, gives, latest_start};
ghost use Rattle.cxl_pick.specs.inner.Wanted.{HasWaysAndSize};
ghost use Rattle.cxl_reason.specs.inner.Gifts.{at_target};

use crate::gifts::told;
use crate::serving::counts_of;
use cxl_enc::UNIT;
use cxl_model::Host;
use cxl_pick::Want;
use cxl_topo::tree_laws;
use cxl_window::Window;

/// Whether each target bridge of a window that can take the region gives something for its share of the ways.
pub(crate) fn is_given(host: &Host, want: &Want, w: &Window, highest: u8) -> bool
    requires ready { IsOrderlySystem (as_system host.now) }
    requires sound { HasWaysAndSize want.now }
    requires highest { (c : ℕ) (parent : Parent) → parent_of host.now.topo.now.nodes c ≡ Some parent → parent.port ≤ highest }
    requires takes { can_take want.now w.now ≡ true }
    ensures { result ≡ is_some (given_in (as_system host.now) want.now w.now) }
{
    let _index = w.index();
    match latest_start(want, w) {
        Some(start) => all_give(host, want, w, start, highest),
        None => false,
    }
}

/// The greatest base in a window from which the region still ends there.
fn latest_start(want: &Want, w: &Window) -> Option<u64>
    requires { w.now.base + w.now.size ≤ address_limit }
    ensures { result ≡ latest_start want.now w.now }
{
    if want.size > w.size() {
        return None;
    }
    let step = if w.ways() % 3 == 0 { 3 * UNIT } else { UNIT };
    Some(w.base() + (w.size() - want.size) / step * step)
}

/// Whether each target bridge of a window gives something for its share of the ways from a start.
pub(crate) fn all_give(host: &Host, want: &Want, w: &Window, start: u64, highest: u8) -> bool
    requires ready { IsOrderlySystem (as_system host.now) }
    requires sound { HasWaysAndSize want.now }
    requires highest { (c : ℕ) (parent : Parent) → parent_of host.now.topo.now.nodes c ≡ Some parent → parent.port ≤ highest }
    requires divides { want.now.ways % w.now.ways ≡ 0 }
    ensures { result ≡ is_some (all_given (map (at_target (as_system host.now) want.now w.now start) w.now.targets)) }
{
    let targets = w.targets();
    for uid in targets {
        if !gives_at(host, want, w, start, highest, *uid) {
            return false;
        }
    }
    true
}

/// Whether the bridge of a UID gives something for its share of the ways from a start.
fn gives_at(host: &Host, want: &Want, w: &Window, start: u64, highest: u8, uid: u32) -> bool
    requires ready { IsOrderlySystem (as_system host.now) }
    requires sound { HasWaysAndSize want.now }
    requires highest { (c : ℕ) (parent : Parent) → parent_of host.now.topo.now.nodes c ≡ Some parent → parent.port ≤ highest }
    requires divides { want.now.ways % w.now.ways ≡ 0 }
    ensures { result ≡ is_some (at_target (as_system host.now) want.now w.now start uid) }
{
    tree_laws();
    let share = want.ways / w.ways();
    match host.topo.bridge(uid) {
        Some(bridge) => {
            let counts = counts_of(host, want, w, start, highest, bridge);
            told(&counts, share) != 0
        }
        None => false,
    }
}
