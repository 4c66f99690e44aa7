//! The largest size at which a window gives something.

ghost use Rattle.std.specs.Prelude.{◌≡◌, ℕ, ◌*◌, ◌<◌, ◌≤◌, Some, MatchOption, is_some, true, false};
ghost use Rattle.cxl_enc.specs.Limits.{unit};
ghost use Rattle.cxl_topo.specs.declared.node.Parent.{Parent};
ghost use Rattle.cxl_topo.specs.Tree.{parent_of};
ghost use Rattle.cxl_model.specs.Hosts.{as_system};
ghost use Rattle.cxl_model.specs.Accepted.{IsOrderlySystem};
ghost use Rattle.cxl_pick.specs.Picking.{can_take, given_in};
ghost use Rattle.cxl_pick.specs.inner.Wanted.{HasWaysAndSize};
ghost use Rattle.cxl_reason.specs.Reasons.{with_size};
ghost use Rattle.cxl_reason.specs.inner.Sizes.{Falls, GivesAtParts, GivesMost};

use crate::windows::is_given;
use cxl_enc::UNIT;
use cxl_model::Host;
use cxl_pick::Want;
use cxl_window::Window;

/// The largest size at which each target bridge of a window gives something, where that is not so at the wanted size.
pub(crate) fn largest_size(host: &Host, want: &Want, w: &Window, highest: u8) -> Option<u64>
    requires ready { IsOrderlySystem (as_system host.now) }
    requires sound { HasWaysAndSize want.now }
    requires highest { (c : ℕ) (parent : Parent) → parent_of host.now.topo.now.nodes c ≡ Some parent → parent.port ≤ highest }
    requires takes { can_take want.now w.now ≡ true }
    // Where it is so at a size, it is at each lower one.
    requires falls { Falls (as_system host.now) want.now w.now }
    requires not { is_some (given_in (as_system host.now) want.now w.now) ≡ false }
    ensures { MatchOption result ((parts : ℕ) → GivesAtParts (as_system host.now) want.now w.now parts → ⊥)
        (GivesMost (as_system host.now) want.now w.now) }
{
    let part = UNIT * u64::from(want.ways);
    // In parts: at the least one that may be so it is so, or it is 0; above the most one it is not.
    let mut least = 0;
    let mut most = want.size / part - 1;
    while least < most {
        let middle = least + (most - least + 1) / 2;
        if is_given_at(host, want, w, highest, middle * part) {
            least = middle;
        } else {
            most = middle - 1;
        }
    }
    if least == 0 {
        return None;
    }
    Some(least * part)
}

/// The same of another size.
fn is_given_at(host: &Host, want: &Want, w: &Window, highest: u8, size: u64) -> bool
    requires ready { IsOrderlySystem (as_system host.now) }
    requires sound { HasWaysAndSize (with_size want.now size) }
    requires highest { (c : ℕ) (parent : Parent) → parent_of host.now.topo.now.nodes c ≡ Some parent → parent.port ≤ highest }
    requires takes { can_take want.now w.now ≡ true }
    ensures { result ≡ is_some (given_in (as_system host.now) (with_size want.now size) w.now) }
{
    let other = Want {
        kind: want.kind,
        size,
        gran: want.gran,
        ways: want.ways,
    };
    is_given(host, &other, w, highest)
}
