//! What is asked of a window's record by itself.

ghost use Rattle.std.specs.Prelude.{◌≡◌, ◌==◌, ◌<◌, ◌+◌, ◌*◌, ◌%◌, ◌||◌, not, nat_lt, length, IsTrue, IfSome, [], position};
ghost use Rattle.cxl_enc.specs.Codes.{is_ways};
ghost use Rattle.cxl_enc.specs.Limits.{unit, address_limit};
ghost use Rattle.cxl_window.specs.Windows.{cfmws_ways, ranges_meet, first_repeat};

use crate::window::Window;
use cxl_enc::{ADDRESS_LIMIT, UNIT, ways_of};
use cxl_num::checked_end;
use cxl_table::Cfmws;

/// The number of ways.
pub(crate) fn cfmws_ways(cfmws: &Cfmws) -> u8
    ensures value { result ≡ cfmws_ways cfmws.now }
    ensures known { IsTrue (is_ways result) }
    ensures targets { result ≡ length cfmws.now.targets }
{
    ways_of(cfmws.ways()).unwrap()
}

pub(crate) fn is_aligned(cfmws: &Cfmws) -> bool
    ensures { result ≡ (cfmws.now.base % unit == 0) }
{
    cfmws.base() % UNIT == 0
}

/// Whether there is no byte, or the bytes are no multiple of 256 MiB for each way.
pub(crate) fn is_uneven(cfmws: &Cfmws) -> bool
    ensures { result ≡ ((cfmws.now.size == 0) || not (cfmws.now.size % (unit * cfmws_ways cfmws.now) == 0)) }
{
    cfmws.size() == 0 || cfmws.size() % (UNIT * u64::from(cfmws_ways(cfmws))) != 0
}

/// Whether the end exceeds 2^52.
pub(crate) fn is_too_high(cfmws: &Cfmws) -> bool
    ensures { result ≡ nat_lt address_limit (cfmws.now.base + cfmws.now.size) }
{
    checked_end(cfmws.base(), cfmws.size()).is_none_or(|end| end > ADDRESS_LIMIT)
}

/// The place of the first window that shares an address with this one.
pub(crate) fn first_overlapped(windows: &[Window], cfmws: &Cfmws) -> Option<usize>
    ensures value { result ≡ position (λ w. ranges_meet cfmws.now.base cfmws.now.size w.base w.size) windows.now }
    ensures inside { IfSome result (λ i. i < length windows.now) }
{
    windows.iter().position(|window| overlaps(cfmws, window))
}

fn overlaps(cfmws: &Cfmws, window: &Window) -> bool
    ensures { result ≡ ranges_meet cfmws.now.base cfmws.now.size window.now.base window.now.size }
{
    // The one that begins later begins in the other one, and is not empty.
    if cfmws.base() < window.base() {
        window.base() - cfmws.base() < cfmws.size() && window.size() > 0
    } else {
        cfmws.base() - window.base() < window.size() && cfmws.size() > 0
    }
}

/// The first target that stands earlier in the list too.
pub(crate) fn first_repeat(targets: &[u32]) -> Option<u32>
    ensures { result ≡ first_repeat [] targets.now }
{
    for (i, uid) in targets.iter().enumerate() {
        if targets[..i].contains(uid) {
            return Some(*uid);
        }
    }
    None
}
