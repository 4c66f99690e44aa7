//! Where a new region may start.

ghost use Rattle.std.specs.Prelude.{◌≡◌, ℕ, ◌<◌, ◌≤◌, ◌+◌, ◌-◌, ◌*◌, ◌%◌, max};
ghost use Rattle.cxl_enc.specs.Limits.{unit, address_limit};
ghost use Rattle.cxl_model.specs.Hosts.{as_system};
ghost use Rattle.cxl_legal.specs.Bases.{base_step};
ghost use Rattle.cxl_plan.specs.inner.Uses.{AreUses};
ghost use Rattle.cxl_plan.specs.inner.Judging.{AsksOrderlySystem};
ghost use Rattle.cxl_plan.specs.inner.Floors.{IsFloor};

use crate::used::Uses;
use cxl_enc::UNIT;
use cxl_legal::last_end;
use cxl_model::{Host, Request};
use cxl_window::Window;

/// The end of all that is committed in the used nodes, or 0.
pub(crate) fn floor(host: &Host, request: &Request, uses: &Uses) -> u64
    requires ready { AsksOrderlySystem (as_system host.now) request.now }
    requires uses { AreUses host.now.topo.now.nodes request.now uses.now }
    ensures { IsFloor host.now.topo.now.nodes host.now.image.now request.now result }
{
    let mut floor = 0;
    for node in &uses.nodes {
        floor = greater(last_end(host.image.block(*node)), floor);
    }
    floor
}

fn greater(a: u64, b: u64) -> u64
    ensures { result ≡ max a b }
{
    if a < b { b } else { a }
}

/// The least base in a window that is at or above `floor`.
pub(crate) fn least_base(w: &Window, floor: u64) -> u64
    requires base { w.now.base ≤ address_limit }
    requires floor { floor ≤ address_limit }
    ensures from { w.now.base ≤ result }
    ensures above { floor ≤ result }
    ensures step { (result - w.now.base) % base_step w.now ≡ 0 }
    ensures least { (other : ℕ) → w.now.base ≤ other → floor ≤ other → (other - w.now.base) % base_step w.now ≡ 0 → result ≤ other }
    ensures low { result ≤ 3 * address_limit }
{
    let least = floor.saturating_sub(w.base());
    if w.ways() % 3 == 0 {
        w.base() + three_units_up(least)
    } else {
        w.base() + units_up(least)
    }
}

/// The least multiple of 256 MiB that is no less.
fn units_up(n: u64) -> u64
    requires { n ≤ address_limit }
    ensures above { n ≤ result }
    ensures aligned { result % unit ≡ 0 }
    ensures least { (m : ℕ) → n ≤ m → m % unit ≡ 0 → result ≤ m }
    ensures low { result ≤ 2 * address_limit }
{
    (n + (UNIT - 1)) / UNIT * UNIT
}

/// The least multiple of 768 MiB that is no less.
fn three_units_up(n: u64) -> u64
    requires { n ≤ address_limit }
    ensures above { n ≤ result }
    ensures aligned { result % (3 * unit) ≡ 0 }
    ensures least { (m : ℕ) → n ≤ m → m % (3 * unit) ≡ 0 → result ≤ m }
    ensures low { result ≤ 2 * address_limit }
{
    (n + (3 * UNIT - 1)) / (3 * UNIT) * (3 * UNIT)
}
