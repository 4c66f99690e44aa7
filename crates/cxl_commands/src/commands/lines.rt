//! The line of a record in what `list` writes.

ghost use Rattle.std.specs.Prelude.{◌≡◌, ◌++◌, ◌<◌, IsSome, OnOk, length, codes, decimal};
ghost use Rattle.cxl_cedt.specs.RecordTexts.{record_in};
ghost use Rattle.cxl_commands.specs.commands.LinePlaces.{line_at};
ghost use Rattle.cxl_commands.specs.commands.Lines.{more_maps_text, maps_text, verdict_text, bridge_text, registers_text, range_text, interleave_text, arithmetic_text, restrict_text, policy_text, use_text, chbs_line, window_line, cxims_line, other_text};
ghost use Rattle.cxl_reply.specs.Words.{hex_text};
ghost use Rattle.cxl_window.specs.Windows.{cfmws_in};

use cxl_cedt::{Chbs, Cxims, Record, RecordText};
use cxl_io::{Memory, put_hex, put_number};
use cxl_text::{put_address, put_gran, put_targets};
use cxl_window::{Verdict, Window};

/// Appends the line of a record, before which so many of the windows stand.
pub(crate) fn put_line(
    out: &mut Vec<u8>,
    item: &RecordText<'_>,
    windows: &[Window],
    place: usize,
) -> Result<(), Memory>
    requires { IsSome (cfmws_in (record_in item.now)) → place < length windows.now }
    ensures { OnOk result (out.new.items ≡ out.old.items ++ line_at windows.now place (record_in item.now)) }
{
    match item {
        RecordText::Judged(record) => put_record_line(out, record, windows, place),
        RecordText::Other(other) => put_other_line(out, other.kind(), other.body()),
    }
}

fn put_record_line(
    out: &mut Vec<u8>,
    item: &Record,
    windows: &[Window],
    place: usize,
) -> Result<(), Memory>
    requires { IsSome (cfmws_in item.now) → place < length windows.now }
    ensures { OnOk result (out.new.items ≡ out.old.items ++ line_at windows.now place item.now) }
{
    match item {
        Record::Chbs(chbs) => put_chbs_line(out, chbs),
        Record::Cfmws(window) => put_window_line(out, &windows[place], window.qtg()),
        Record::Cxims(maps) => put_cxims_line(out, maps),
        Record::Other(other) => put_other_line(out, other.kind(), other.body()),
    }
}

fn put_chbs_line(out: &mut Vec<u8>, chbs: &Chbs) -> Result<(), Memory>
    ensures { OnOk result (out.new.items ≡ out.old.items ++ chbs_line chbs.now) }
{
    put_bridge(out, chbs)?;
    put_registers(out, chbs)?;
    put_line_end(out)
}

#[tactic(auto, unfolding(crate::specs::commands::Lines::bridge_text))]
fn put_bridge(out: &mut Vec<u8>, chbs: &Chbs) -> Result<(), Memory>
    ensures { OnOk result (out.new.items ≡ out.old.items ++ bridge_text chbs.now) }
{
    put_count(out, b"chbs ", chbs.uid)?;
    put_count(out, b" version ", chbs.version)
}

#[tactic(auto, unfolding(crate::specs::commands::Lines::registers_text))]
fn put_registers(out: &mut Vec<u8>, chbs: &Chbs) -> Result<(), Memory>
    ensures { OnOk result (out.new.items ≡ out.old.items ++ registers_text chbs.now) }
{
    put_size(out, b" base ", chbs.base)?;
    put_size(out, b" length ", chbs.length)
}

/// Appends the line of a window whose record has this throttling group.
fn put_window_line(out: &mut Vec<u8>, window: &Window, qtg: u16) -> Result<(), Memory>
    ensures { OnOk result (out.new.items ≡ out.old.items ++ window_line window.now qtg) }
{
    put_decoding(out, window)?;
    put_policy(out, window.restrict(), qtg)?;
    put_use(out, window)?;
    put_line_end(out)
}

/// Appends which addresses a window decodes, and how.
fn put_decoding(out: &mut Vec<u8>, window: &Window) -> Result<(), Memory>
    ensures { OnOk result (out.new.items ≡ out.old.items ++ (range_text window.now ++ interleave_text window.now)) }
{
    put_range(out, window)?;
    put_interleave(out, window)
}

#[tactic(auto, unfolding(crate::specs::commands::Lines::range_text))]
fn put_range(out: &mut Vec<u8>, window: &Window) -> Result<(), Memory>
    ensures { OnOk result (out.new.items ≡ out.old.items ++ range_text window.now) }
{
    put_count(out, b"window ", window.index())?;
    put_size(out, b" base ", window.base())?;
    put_size(out, b" size ", window.size())
}

#[tactic(auto, unfolding(crate::specs::commands::Lines::interleave_text))]
fn put_interleave(out: &mut Vec<u8>, window: &Window) -> Result<(), Memory>
    ensures { OnOk result (out.new.items ≡ out.old.items ++ interleave_text window.now) }
{
    put_count(out, b" ways ", u32::from(window.ways()))?;
    put_text(out, b" gran ")?;
    put_gran(out, window.gran())?;
    put_arithmetic(out, window.xor())
}

/// Appends the arithmetic of a window, behind a space.
fn put_arithmetic(out: &mut Vec<u8>, xor: bool) -> Result<(), Memory>
    ensures { OnOk result (out.new.items ≡ out.old.items ++ (codes " " ++ arithmetic_text xor)) }
{
    if xor {
        put_text(out, b" xor")
    } else {
        put_text(out, b" modulo")
    }
}

#[tactic(auto, unfolding(crate::specs::commands::Lines::policy_text))]
fn put_policy(out: &mut Vec<u8>, restrict: u16, qtg: u16) -> Result<(), Memory>
    ensures { OnOk result (out.new.items ≡ out.old.items ++ policy_text restrict qtg) }
{
    put_restrict(out, restrict)?;
    put_count(out, b" qtg ", u32::from(qtg))
}

/// Appends the restrictions of a window, behind their word.
#[tactic(auto, unfolding(crate::specs::commands::Lines::restrict_text))]
fn put_restrict(out: &mut Vec<u8>, restrict: u16) -> Result<(), Memory>
    ensures { OnOk result (out.new.items ≡ out.old.items ++ (codes " restrict " ++ restrict_text restrict)) }
{
    put_text(out, b" restrict 0x")?;
    put_hex(out, u64::from(restrict), 4)
}

#[tactic(auto, unfolding(crate::specs::commands::Lines::use_text))]
fn put_use(out: &mut Vec<u8>, window: &Window) -> Result<(), Memory>
    ensures { OnOk result (out.new.items ≡ out.old.items ++ use_text window.now) }
{
    put_text(out, b" targets ")?;
    put_targets(out, window.targets())?;
    out.push(b' ')?;
    put_verdict(out, window.verdict())
}

fn put_verdict(out: &mut Vec<u8>, verdict: Verdict) -> Result<(), Memory>
    ensures { OnOk result (out.new.items ≡ out.old.items ++ verdict_text verdict) }
{
    match verdict {
        Verdict::Usable => put_text(out, b"usable"),
        Verdict::Align => put_text(out, b"align"),
        Verdict::Size => put_text(out, b"size"),
        Verdict::TooHigh => put_text(out, b"too-high"),
        Verdict::Overlap(index) => put_count(out, b"overlap ", index),
        Verdict::Target(uid) => put_count(out, b"target ", uid),
        Verdict::Repeat(uid) => put_count(out, b"repeat ", uid),
        Verdict::Maps => put_text(out, b"maps"),
    }
}

fn put_text(out: &mut Vec<u8>, word: &[u8]) -> Result<(), Memory>
    ensures { OnOk result (out.new.items ≡ out.old.items ++ word.now) }
{
    out.extend_from_slice(word)?;
    Ok(())
}

/// Appends a word and a number.
fn put_count(out: &mut Vec<u8>, word: &[u8], number: u32) -> Result<(), Memory>
    ensures { OnOk result (out.new.items ≡ out.old.items ++ (word.now ++ decimal number)) }
{
    out.extend_from_slice(word)?;
    put_number(out, u64::from(number))
}

/// Appends a word and an address or a size.
fn put_size(out: &mut Vec<u8>, word: &[u8], size: u64) -> Result<(), Memory>
    ensures { OnOk result (out.new.items ≡ out.old.items ++ (word.now ++ hex_text size)) }
{
    out.extend_from_slice(word)?;
    put_address(out, size)
}

fn put_line_end(out: &mut Vec<u8>) -> Result<(), Memory>
    ensures { OnOk result (out.new.items ≡ out.old.items ++ codes "\n") }
{
    out.push(b'\n')?;
    Ok(())
}

fn put_cxims_line(out: &mut Vec<u8>, maps: &Cxims) -> Result<(), Memory>
    ensures { OnOk result (out.new.items ≡ out.old.items ++ cxims_line maps.now) }
{
    put_text(out, b"cxims gran ")?;
    put_gran(out, maps.gran())?;
    put_text(out, b" maps ")?;
    put_maps(out, maps.maps())?;
    put_line_end(out)
}

/// Appends the line of a record of this type, with these bytes behind its length.
fn put_other_line(out: &mut Vec<u8>, kind: u8, body: &[u8]) -> Result<(), Memory>
    ensures { OnOk result (out.new.items ≡ out.old.items ++ other_text kind body.now) }
{
    put_count(out, b"other ", u32::from(kind))?;
    put_length(out, 4 + body.len() as u64)
}

/// Appends the length of a record, and the end of its line. Of the shortest records a table has the most.
fn put_length(out: &mut Vec<u8>, len: u64) -> Result<(), Memory>
    ensures { OnOk result (out.new.items ≡ out.old.items ++ (codes " length " ++ decimal len ++ codes "\n")) }
{
    if len < 10 {
        let digit = b'0' + len as u8;
        return put_text(
            out,
            &[b' ', b'l', b'e', b'n', b'g', b't', b'h', b' ', digit, b'\n'],
        );
    }
    put_text(out, b" length ")?;
    put_number(out, len)?;
    put_line_end(out)
}

/// Appends XOR maps, separated by commas, or `none`.
fn put_maps(out: &mut Vec<u8>, maps: &[u64]) -> Result<(), Memory>
    ensures { OnOk result (out.new.items ≡ out.old.items ++ maps_text maps.now) }
{
    match maps {
        [] => put_text(out, b"none"),
        [first, others @ ..] => {
            put_address(out, *first)?;
            put_more_maps(out, others)
        }
    }
}

/// Appends XOR maps, each behind a comma.
fn put_more_maps(out: &mut Vec<u8>, maps: &[u64]) -> Result<(), Memory>
    ensures { OnOk result (out.new.items ≡ out.old.items ++ more_maps_text maps.now) }
{
    for map in maps {
        out.push(b',')?;
        put_address(out, *map)?;
    }
    Ok(())
}
