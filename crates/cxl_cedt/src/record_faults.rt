//! The first fault of the record that stands at the front of a text.

ghost use Rattle.std.specs.Prelude.{◌≡◌, ◌≤◌, nat_lt, if◌then◌else◌, length, Some, None};
ghost use Rattle.cxl_table.specs.Layout.{frame_size};
ghost use Rattle.std.specs.Bool.{OnFalse};
ghost use Rattle.cxl_cedt.specs.Table.{length_said, ways_said, is_cut, has_short_length, has_other_length, has_unknown_gran, record_fault};

use crate::counted::CountedRecords;
use crate::fault::CedtFault;
use crate::layout::{
    ARITHMETIC_PLACE, CFMWS_KIND, CHBS_KIND, CHBS_SIZE, CXIMS_KIND, FRAME_SIZE, KIND_PLACE,
    LENGTH_PLACE, MAPS_COUNT_PLACE, MAPS_FRONT_SIZE, MAPS_GRAN_PLACE, WAYS_PLACE,
    WINDOW_FRONT_SIZE, WINDOW_GRAN_PLACE,
};
use crate::numbers::{u8_at, u16_at, u32_at};
use cxl_enc::ways_of;

/// The fault of the record at the front of `rest`, which stands at byte `at` of the table, behind the
/// records before it.
#[tactic(auto, unfolding(crate::specs::Table::record_fault))]
pub fn record_fault(before: &CountedRecords, rest: &[u8], at: u32) -> Option<CedtFault>
    ensures { result ≡ record_fault before.now.records rest.now at }
{
    if is_cut(rest) {
        return Some(CedtFault::RecordCut(at));
    }
    let kind = u8_at(rest, KIND_PLACE);
    if kind > CXIMS_KIND {
        return other_fault(length_said(rest), at);
    }
    if has_short_length(kind, length_said(rest)) {
        return Some(CedtFault::RecordLength(at));
    }
    if kind == CFMWS_KIND && ways_said(rest).is_none() {
        return Some(CedtFault::WaysCode(at));
    }
    if has_other_length(kind, rest) {
        return Some(CedtFault::RecordLength(at));
    }
    if has_unknown_gran(kind, rest) {
        return Some(CedtFault::GranCode(at));
    }
    if kind == CFMWS_KIND && u8_at(rest, ARITHMETIC_PLACE) > 1 {
        return Some(CedtFault::Arithmetic(at));
    }
    if before.is_kind_full(kind) {
        return Some(CedtFault::TooMany(at));
    }
    None
}

/// The fault of a record of another type that is not cut: its length alone can be wrong.
fn other_fault(size: u16, at: u32) -> Option<CedtFault>
    ensures { result ≡ (if nat_lt size frame_size then Some (CedtFault.RecordLength at) else None) }
{
    if size < FRAME_SIZE {
        return Some(CedtFault::RecordLength(at));
    }
    None
}

/// The length that the record says.
pub fn length_said(rest: &[u8]) -> u16
    requires { 4 ≤ length rest.now }
    ensures { result ≡ length_said rest.now }
{
    u16_at(rest, LENGTH_PLACE)
}

/// Whether the record passes the end.
#[tactic(auto, unfolding(crate::specs::Table::is_cut))]
fn is_cut(rest: &[u8]) -> bool
    ensures value { result ≡ is_cut rest.now }
    ensures frame { OnFalse result (4 ≤ length rest.now) }
    ensures whole { OnFalse result (length_said rest.now ≤ length rest.now) }
{
    rest.len() < FRAME_SIZE as usize || rest.len() < length_said(rest) as usize
}

/// Whether no record of this type has this length.
#[tactic(auto, unfolding(crate::specs::Table::has_short_length))]
fn has_short_length(kind: u8, size: u16) -> bool
    ensures value { result ≡ has_short_length kind size }
    ensures window { OnFalse result (kind ≡ 1 → 36 ≤ size) }
    ensures maps { OnFalse result (kind ≡ 2 → 8 ≤ size) }
{
    match kind {
        CHBS_KIND => size != CHBS_SIZE,
        CFMWS_KIND => size < WINDOW_FRONT_SIZE,
        CXIMS_KIND => size < MAPS_FRONT_SIZE,
        _ => size < FRAME_SIZE,
    }
}

/// The ways of the window.
fn ways_said(rest: &[u8]) -> Option<u8>
    requires { 36 ≤ length rest.now }
    ensures { result ≡ ways_said rest.now }
{
    ways_of(u8_at(rest, WAYS_PLACE))
}

/// Whether the length is not that of the window's ways or of the maps.
#[tactic(auto, unfolding(crate::specs::Table::has_other_length))]
fn has_other_length(kind: u8, rest: &[u8]) -> bool
    requires window { kind ≡ 1 → 36 ≤ length rest.now }
    requires maps { kind ≡ 2 → 8 ≤ length rest.now }
    ensures { result ≡ has_other_length kind rest.now }
{
    match kind {
        CFMWS_KIND => u32::from(length_said(rest))
            != u32::from(WINDOW_FRONT_SIZE) + 4 * u32::from(ways_said(rest).unwrap_or(0)),
        CXIMS_KIND => u32::from(length_said(rest))
            != u32::from(MAPS_FRONT_SIZE) + 8 * u32::from(u8_at(rest, MAPS_COUNT_PLACE)),
        _ => false,
    }
}

/// Whether the granularity code of the window or of the maps is unknown.
#[tactic(auto, unfolding(crate::specs::Table::has_unknown_gran))]
fn has_unknown_gran(kind: u8, rest: &[u8]) -> bool
    requires window { kind ≡ 1 → 36 ≤ length rest.now }
    requires maps { kind ≡ 2 → 8 ≤ length rest.now }
    ensures { result ≡ has_unknown_gran kind rest.now }
{
    match kind {
        CFMWS_KIND => u32_at(rest, WINDOW_GRAN_PLACE) > 6,
        CXIMS_KIND => u8_at(rest, MAPS_GRAN_PLACE) > 6,
        _ => false,
    }
}
