//! What is known of the ranges that were met: it is worked out once for a range, and not once for each decoder of it.

ghost use Rattle.std.specs.Prelude.{◌≡◌, All, IfOk, find, slice_get};
ghost use Rattle.std.specs.Option.{option_copied};
ghost use Rattle.cxl_model.specs.Hosts.{as_system};
ghost use Rattle.cxl_model.specs.Ranges.{lies_within};
ghost use Rattle.cxl_model.specs.Accepted.{IsOrderlySystem};
ghost use Rattle.cxl_check.specs.inner.Facts.{AreSystemTables};
ghost use Rattle.cxl_check.specs.inner.Known.{IsKnown, IsKnownAs};

use crate::facts::{RangeFacts, facts_of};
use crate::tables::Tables;
use crate::window::place_for;
use cxl_enc::UNIT;
use cxl_model::Host;
use cxl_regs::Range;
use cxl_window::Window;
use std::alloc::{AllocError, Global};

/// What is known of a range.
#[derive(Clone, Copy)]
pub struct Known {
    pub range: Range,
    /// The number of the usable window in which it lies, or how many windows there are where it lies in none.
    pub window: usize,
    pub facts: RangeFacts,
}

/// Places for ranges, with none met yet. Takes memory.
///
/// There are four times as many, so that few ranges share a place; and the number of places is odd, so that ranges which lie
/// apart by some power of two have places of their own.
pub(crate) fn none_met(
    alloc: Global,
    host: &Host,
    tables: &Tables,
) -> Result<Vec<Known>, AllocError>
    requires ready { IsOrderlySystem (as_system host.now) }
    requires tables { AreSystemTables (as_system host.now) tables.now }
    ensures { IfOk result (λ met. All (IsKnown (as_system host.now)) met.items) }
{
    let known = learn(host, tables, &Range { base: 0, size: 0 });
    let count = tables.firsts.len().saturating_mul(4) | 1;
    vec![in alloc; known; count]
}

/// What is known of a range, which is then the last one met at its place.
pub(crate) fn known_of(met: &mut Vec<Known>, host: &Host, tables: &Tables, range: &Range) -> Known
    requires ready { IsOrderlySystem (as_system host.now) }
    requires tables { AreSystemTables (as_system host.now) tables.now }
    requires met { All (IsKnown (as_system host.now)) met.old.items }
    ensures known { IsKnownAs (as_system host.now) range.now result }
    ensures met { All (IsKnown (as_system host.now)) met.new.items }
{
    let count = met.len();
    if count == 0 {
        return learn(host, tables, range);
    }
    let place = (range.base / UNIT) as usize % count;
    let last = met[place];
    if last.range.base == range.base && last.range.size == range.size {
        return last;
    }
    let known = learn(host, tables, range);
    met[place] = known;
    known
}

/// What is known of a range.
fn learn(host: &Host, tables: &Tables, range: &Range) -> Known
    requires ready { IsOrderlySystem (as_system host.now) }
    requires tables { AreSystemTables (as_system host.now) tables.now }
    ensures { IsKnownAs (as_system host.now) range.now result }
{
    Known {
        range: *range,
        window: place_for(host.windows, range),
        facts: facts_of(host, tables, range),
    }
}

/// The usable window in which a range lies, by what is known of it.
pub(crate) fn window_of<'a>(host: &Host<'a>, range: &Range, known: &Known) -> Option<&'a Window>
    requires { IsKnownAs (as_system host.now) range.now known.now }
    ensures { option_copied result ≡ find (lies_within range.now) host.now.windows.now }
{
    host.windows.get(known.window)
}
