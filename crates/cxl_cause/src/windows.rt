//! K9: why a range does not lie where it may.

ghost use Rattle.std.specs.Prelude.{◌≡◌, ◌+◌, ◌<◌, ◌&&◌, ◌||◌, not, true, length, find, slice_get, Some};
ghost use Rattle.std.specs.Option.{option_copied};
ghost use Rattle.cxl_window.specs.Position.{is_usable, holds};
ghost use Rattle.cxl_regs.specs.Reading.{range_of};
ghost use Rattle.cxl_model.specs.Hosts.{as_system};
ghost use Rattle.cxl_model.specs.System.{decoder_at};
ghost use Rattle.cxl_model.specs.Ranges.{lies_within};
ghost use Rattle.cxl_model.specs.Rules.{starts_in_thirds};
ghost use Rattle.cxl_cause.specs.RangeCauses.{window_miss, next_third, window_cause};

use crate::cause::Cause;
use crate::lookups::{span_kind, window_for};
use cxl_enc::UNIT;
use cxl_model::Host;
use cxl_regs::{Decoder, Range};
use cxl_window::{Window, permits};

/// The cause of K9 at a committed decoder.
pub(crate) fn window_cause(host: &Host, node: u32, i: u8, d: &Decoder) -> Option<Cause>
    requires here { node < length host.now.topo.now.nodes }
    requires there { decoder_at (as_system host.now) node i ≡ Some d.now }
    ensures { result ≡ window_cause (as_system host.now) node i d.now }
{
    let range = d.range();
    let Some(w) = window_for(host.windows, &range) else {
        return Some(window_miss(host.windows, &range));
    };
    if !starts_in_thirds(w, &range) {
        return Some(Cause::NotInThirds {
            window: w.index(),
            next: next_third(w, &range),
        });
    }
    if !host.topo.is_endpoint(node) {
        return None;
    }
    let kind = span_kind(host, node, i, d);
    if permits(w, kind) {
        return None;
    }
    Some(Cause::KindForbidden {
        window: w.index(),
        kind,
        restrict: w.restrict(),
    })
}

/// Why a range lies in no usable window: by the usable window that holds its base, or another that does.
fn window_miss(windows: &[Window], range: &Range) -> Cause
    ensures { result ≡ window_miss windows.now range.now }
{
    if let Some(w) = holding(windows, range.base, true) {
        return Cause::AcrossWindow {
            window: w.index(),
            end: window_end(w),
        };
    }
    match holding(windows, range.base, false) {
        Some(w) => Cause::UnusableWindow {
            window: w.index(),
            verdict: w.verdict(),
        },
        None => Cause::NoWindow,
    }
}

/// Where a window that can be used ends.
fn window_end(w: &Window) -> u64
    requires { is_usable w.now.verdict ≡ true }
    ensures { result ≡ w.now.base + w.now.size }
{
    let _index = w.index();
    w.base() + w.size()
}

/// The first window that holds an address, of all windows or of those that can be used.
fn holding(windows: &[Window], h: u64, usable: bool) -> Option<&Window>
    ensures { option_copied result
        ≡ find (λ w. (not usable || is_usable w.verdict) && holds w h) windows.now }
{
    windows.get(place_holding(windows, h, usable))
}

/// Its place among the windows, or how many there are where there is none.
fn place_holding(windows: &[Window], h: u64, usable: bool) -> usize
    ensures { slice_get windows.now result
        ≡ find (λ w. (not usable || is_usable w.verdict) && holds w h) windows.now }
{
    for i in 0..windows.len() {
        if is_holding(&windows[i], h, usable) {
            return i;
        }
    }
    windows.len()
}

/// Whether a window holds an address, and where it has to be usable, is that.
fn is_holding(w: &Window, h: u64, usable: bool) -> bool
    ensures { result ≡ ((not usable || is_usable w.now.verdict) && holds w.now h) }
{
    (!usable || w.is_usable()) && holds(w, h)
}

/// Whether a window holds an address.
fn holds(w: &Window, h: u64) -> bool
    ensures { result ≡ holds w.now h }
{
    w.base() <= h && u128::from(h) < u128::from(w.base()) + u128::from(w.size())
}

/// Whether a range starts at a multiple of 768 MiB from the base of a window whose ways are divided by three.
fn starts_in_thirds(w: &Window, range: &Range) -> bool
    ensures { result ≡ starts_in_thirds w.now range.now }
{
    w.ways() % 3 != 0 || range.base.saturating_sub(w.base()) % (3 * UNIT) == 0
}

/// The next address past the base of a range in a window that is a multiple of 768 MiB from the window's.
fn next_third(w: &Window, range: &Range) -> u64
    requires { lies_within range.now w.now ≡ true }
    ensures { result ≡ next_third w.now range.now }
{
    let _index = w.index();
    let third = 3 * UNIT;
    w.base() + (range.base.saturating_sub(w.base()) / third + 1) * third
}
