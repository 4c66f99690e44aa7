//! What is wanted of a set, and what a window gives it.

ghost use Rattle.std.specs.Prelude.{◌≡◌, ◌<◌, ◌≤◌, true};
ghost use Rattle.cxl_enc.specs.Codes.{is_ways, log2_of};
ghost use Rattle.cxl_enc.specs.Limits.{address_limit};
ghost use Rattle.cxl_pick.specs.Picking.{wanted_code, wanted_share, port_code};

use cxl_pick::Want;
use cxl_window::Window;

/// The bytes of each endpoint.
pub(crate) fn share(want: &Want) -> u64
    requires ways { is_ways want.now.ways ≡ true }
    requires low { want.now.size ≤ address_limit }
    ensures value { result ≡ wanted_share want.now }
    ensures low { result ≤ address_limit }
{
    want.size / u64::from(want.ways)
}

/// The granularity code of the region in a window.
pub(crate) fn wanted_code(want: &Want, w: &Window) -> u8
    ensures { result ≡ wanted_code want.now w.now }
{
    if want.ways == 1 {
        return 0;
    }
    if w.ways() > 1 {
        return w.gran();
    }
    match want.gran {
        Some(code) => code,
        None => w.gran(),
    }
}

/// The code that a port above `m` endpoints of the region would have.
pub(crate) fn port_code(want: &Want, w: &Window, m: u8) -> u32
    requires some { 0 < m }
    requires few { m ≤ 16 }
    ensures { result ≡ port_code want.now w.now m }
{
    let third = if w.ways() % 3 == 0 { 3 } else { 1 };
    u32::from(wanted_code(want, w)) + log2_of(want.ways / (third * m))
}

/// The exponent of a power of two up to 16.
fn log2_of(n: u8) -> u32
    ensures value { result ≡ log2_of n }
    ensures few { result ≤ 4 }
{
    match n {
        16 => 4,
        8 => 3,
        4 => 2,
        2 => 1,
        _ => 0,
    }
}
