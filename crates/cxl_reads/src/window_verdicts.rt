//! The verdict on a window, and which of its causes it is.

ghost use Rattle.std.specs.Prelude.{◌≡◌, ◌++◌, OnOk, codes, decimal, length};
ghost use Rattle.std.specs.List.{list_any};
ghost use Rattle.std.specs.Option.{option_map};
ghost use Rattle.cxl_enc.specs.Codes.{bits_of};
ghost use Rattle.cxl_reads.specs.Windows.{is_bridge_of, missing_text, lacking_text, verdict_text};
ghost use Rattle.cxl_window.specs.Windows.{is_cxl2_bridge, maps_in};

use crate::answers::put_text;
use cxl_enc::{Memory, split};
use cxl_io::put_number;
use cxl_table::Record;
use cxl_window::{Verdict, Window};

/// Appends the verdict on a window of a table, with what is behind it.
pub(crate) fn put_verdict(
    out: &mut Vec<u8>,
    records: &[Record],
    window: &Window,
) -> Result<(), Memory>
    ensures { OnOk result (out.new.items ≡ out.old.items ++ verdict_text records.now window.now window.now.verdict) }
{
    match window.verdict() {
        Verdict::Usable => put_text(out, b"usable"),
        Verdict::Align => put_text(out, b"align"),
        Verdict::Size => put_text(out, b"size"),
        Verdict::TooHigh => put_text(out, b"too-high"),
        Verdict::Overlap(index) => put_named(out, b"overlap ", index),
        Verdict::Target(uid) => put_lost_target(out, records, uid),
        Verdict::Repeat(uid) => put_named(out, b"repeat ", uid),
        Verdict::Maps => put_lost_maps(out, records, window),
    }
}

/// Appends a word and a number.
fn put_named(out: &mut Vec<u8>, word: &[u8], number: u32) -> Result<(), Memory>
    ensures { OnOk result (out.new.items ≡ out.old.items ++ (word.now ++ decimal number)) }
{
    put_text(out, word)?;
    put_number(out, u64::from(number))
}

/// Appends a target that is missing, and where.
fn put_lost_target(out: &mut Vec<u8>, records: &[Record], uid: u32) -> Result<(), Memory>
    ensures { OnOk result (out.new.items ≡ out.old.items ++ (codes "target " ++ decimal uid ++ codes " " ++ missing_text records.now uid)) }
{
    put_named(out, b"target ", uid)?;
    out.push(b' ')?;
    put_missing(out, records, uid)
}

/// Appends where a target is missing.
fn put_missing(out: &mut Vec<u8>, records: &[Record], uid: u32) -> Result<(), Memory>
    ensures { OnOk result (out.new.items ≡ out.old.items ++ missing_text records.now uid) }
{
    if has_cxl2_bridge(records, uid) {
        put_text(out, b"no-bridge")
    } else if has_bridge(records, uid) {
        put_text(out, b"no-cxl2")
    } else {
        put_text(out, b"no-chbs")
    }
}

/// Whether a table has a CXL 2.0 bridge of this UID.
fn has_cxl2_bridge(records: &[Record], uid: u32) -> bool
    ensures { result ≡ list_any (is_cxl2_bridge uid) records.now }
{
    records.iter().any(|record| is_cxl2_bridge(record, uid))
}

/// Whether a table has a bridge of this UID.
fn has_bridge(records: &[Record], uid: u32) -> bool
    ensures { result ≡ list_any (is_bridge_of uid) records.now }
{
    records.iter().any(|record| is_bridge_of(record, uid))
}

fn is_cxl2_bridge(item: &Record, uid: u32) -> bool
    ensures { result ≡ is_cxl2_bridge uid item.now }
{
    match item {
        Record::Chbs(chbs) => chbs.uid == uid && chbs.version == 1,
        _ => false,
    }
}

fn is_bridge_of(item: &Record, uid: u32) -> bool
    ensures { result ≡ is_bridge_of uid item.now }
{
    match item {
        Record::Chbs(chbs) => chbs.uid == uid,
        _ => false,
    }
}

/// Appends why a window lacks XOR maps.
fn put_lost_maps(out: &mut Vec<u8>, records: &[Record], window: &Window) -> Result<(), Memory>
    ensures { OnOk result (out.new.items
        ≡ out.old.items ++ (codes "maps " ++ lacking_text (option_map length (maps_in window.now.gran records.now)) (bits_of window.now.ways))) }
{
    let needed = split(window.ways()).bits;
    put_text(out, b"maps ")?;
    put_lacking(out, map_count(records, window.gran()), needed)
}

/// Appends why so many maps of a granularity do not serve a window that needs so many.
fn put_lacking(out: &mut Vec<u8>, count: Option<usize>, needed: u8) -> Result<(), Memory>
    ensures { OnOk result (out.new.items ≡ out.old.items ++ lacking_text count needed) }
{
    match count {
        None => put_text(out, b"no-cxims"),
        Some(count) if count < usize::from(needed) => put_few(out, count, needed),
        Some(_) => put_text(out, b"unfit"),
    }
}

fn put_few(out: &mut Vec<u8>, count: usize, needed: u8) -> Result<(), Memory>
    ensures { OnOk result (out.new.items ≡ out.old.items ++ (codes "few " ++ decimal count ++ codes " " ++ decimal needed)) }
{
    put_text(out, b"few ")?;
    put_number(out, count as u64)?;
    out.push(b' ')?;
    put_number(out, u64::from(needed))
}

/// How many maps the first record of a granularity code has, where there is one.
fn map_count(records: &[Record], gran: u8) -> Option<usize>
    ensures { result ≡ option_map length (maps_in gran records.now) }
{
    for record in records {
        if let Record::Cxims(maps) = record {
            if maps.gran() == gran {
                return Some(maps.maps().len());
            }
        }
    }
    None
}
