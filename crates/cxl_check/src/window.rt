//! K9: where a range lies.

ghost use Rattle.std.specs.Prelude.{◌≡◌, ◌<◌, ◌≤◌, true, length, find, slice_get};
ghost use Rattle.cxl_topo.specs.Tree.{is_endpoint_at};
ghost use Rattle.cxl_model.specs.Hosts.{as_system};
ghost use Rattle.cxl_model.specs.Ranges.{lies_within, span_kind};
ghost use Rattle.cxl_model.specs.Rules.{starts_in_thirds, keeps_window};
ghost use Rattle.cxl_regs.specs.Reading.{range_of};
ghost use Rattle.cxl_check.specs.inner.DecoderFacts.{AreDecoderFacts};
ghost use Rattle.cxl_check.specs.inner.Known.{IsKnownAs};

use crate::decoder_facts::{DecoderFacts, kind_of};
use crate::known::{Known, window_of};
use cxl_enc::UNIT;
use cxl_model::Host;
use cxl_regs::{Decoder, Range};
use cxl_window::{Window, permits};

/// K9 of a committed decoder: its range lies in a usable window, in thirds where it must, and an endpoint's span is of a
/// kind that the window permits.
pub(crate) fn keeps_window(
    host: &Host,
    known: &Known,
    facts: &DecoderFacts,
    node: u32,
    i: u8,
    d: &Decoder,
) -> bool
    requires known { IsKnownAs (as_system host.now) (range_of d.now) known.now }
    requires here { node < length host.now.topo.now.nodes }
    requires facts { AreDecoderFacts (as_system host.now) node i d.now facts.now }
    ensures { result ≡ keeps_window (as_system host.now) node i d.now }
{
    let range = d.range();
    let Some(w) = window_of(host, &range, known) else {
        return false;
    };
    starts_in_thirds(w, &range)
        && (!host.topo.is_endpoint(node) || permits(w, kind_of(host, facts, node, i, d)))
}

/// The number of the usable window in which a range lies, or how many windows there are where there is none.
pub(crate) fn place_for(windows: &[Window], range: &Range) -> usize
    ensures { slice_get windows.now result ≡ find (lies_within range.now) windows.now }
{
    for i in 0..windows.len() {
        if lies_within(range, &windows[i]) {
            return i;
        }
    }
    windows.len()
}

/// Whether a window can be used, and a range lies in it.
fn lies_within(range: &Range, w: &Window) -> bool
    ensures { result ≡ lies_within range.now w.now }
{
    let end = u128::from(range.base) + u128::from(range.size);
    w.is_usable() && w.base() <= range.base && end <= u128::from(w.base()) + u128::from(w.size())
}

/// Whether a range starts at a multiple of 768 MiB from the base of a window whose ways are divided by three.
fn starts_in_thirds(w: &Window, range: &Range) -> bool
    ensures { result ≡ starts_in_thirds w.now range.now }
{
    w.ways() % 3 != 0 || range.base.saturating_sub(w.base()) % (3 * UNIT) == 0
}
