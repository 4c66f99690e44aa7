//! What is wanted of a pick, and what a window gives it.

ghost use Rattle.std.specs.Prelude.{◌≡◌, ◌<◌, ◌≤◌, ◌+◌, true, IfSome};
ghost use Rattle.cxl_enc.specs.Codes.{is_ways, log2_of};
ghost use Rattle.cxl_enc.specs.Limits.{address_limit};
ghost use Rattle.cxl_pick.specs.Picking.{can_take, latest_start, wanted_code, wanted_share, port_code};

use crate::want::Want;
use cxl_enc::UNIT;
use cxl_legal::agrees_on_gran;
use cxl_window::{Window, is_fixed, permits};

/// The bytes of each endpoint.
pub(crate) fn share(want: &Want) -> u64
    requires ways { is_ways want.now.ways ≡ true }
    requires low { want.now.size ≤ address_limit }
    ensures value { result ≡ wanted_share want.now }
    ensures low { result ≤ address_limit }
{
    want.size / u64::from(want.ways)
}

/// Whether a window can take a region that is wanted, but for its bridges and its room.
pub(crate) fn can_take(want: &Want, w: &Window) -> bool
    ensures { result ≡ can_take want.now w.now }
{
    w.is_usable()
        && permits(w, want.kind)
        && !is_fixed(w)
        && agrees_on_gran(want.gran, w)
        && want.ways % w.ways() == 0
}

/// The greatest base in a window from which the region still ends there.
pub(crate) fn latest_start(want: &Want, w: &Window) -> Option<u64>
    requires { w.now.base + w.now.size ≤ address_limit }
    ensures start { result ≡ latest_start want.now w.now }
    ensures low { IfSome result (λ start. start ≤ address_limit) }
{
    if want.size > w.size() {
        return None;
    }
    let step = if w.ways() % 3 == 0 { 3 * UNIT } else { UNIT };
    Some(w.base() + (w.size() - want.size) / step * step)
}

/// The granularity code of the region in a window.
pub(crate) fn wanted_code(want: &Want, w: &Window) -> u8
    ensures { result ≡ wanted_code want.now w.now }
{
    if want.ways == 1 {
        return 0;
    }
    if w.ways() > 1 {
        return w.gran();
    }
    match want.gran {
        Some(code) => code,
        None => w.gran(),
    }
}

/// The code that a port above `m` endpoints of the region would have.
pub(crate) fn port_code(want: &Want, w: &Window, m: u8) -> u32
    requires some { 0 < m }
    requires few { m ≤ 16 }
    ensures { result ≡ port_code want.now w.now m }
{
    let third = if w.ways() % 3 == 0 { 3 } else { 1 };
    u32::from(wanted_code(want, w)) + log2_of(want.ways / (third * m))
}

/// The exponent of a power of two up to 16.
fn log2_of(n: u8) -> u32
    ensures value { result ≡ log2_of n }
    ensures few { result ≤ 4 }
{
    match n {
        16 => 4,
        8 => 3,
        4 => 2,
        2 => 1,
        _ => 0,
    }
}
