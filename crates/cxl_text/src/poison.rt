//! The text of a poison list, with what each record touches.

ghost use Rattle.std.specs.Prelude.{◌≡◌, ◌+◌, ◌<◌, ◌≤◌, ◌++◌, All, codes, length, OnOk};
ghost use Rattle.std.specs.List.{flat_map, zip};
ghost use Rattle.cxl_model.specs.declared.poison.Part.TheVariants as parts;
ghost use Rattle.cxl_reply.specs.Words.{line};
ghost use Rattle.cxl_reply.specs.Texts.{flag_text, overflow_text, flags_text, list_text, source_text, entry_text, region_text, part_text, unmapped_text, record_text, report_text};
ghost use Rattle.cxl_text.specs.Short.{short_limit};
ghost use Rattle.cxl_reply.specs.Conditions.{region_of, IsToldReport};

use crate::refusal::{put_short_line, put_whole_text};
use crate::short_text::ShortText;
use cxl_enc::{Memory, Name};
use cxl_model::{Entry, Part, PoisonList, Poisoned, Run, Wide};
use cxl_reply::Report;
use cxl_topo::Topo;

/// Appends a poison list, and for each record the host bytes that it touches.
pub(crate) fn put_report(out: &mut Vec<u8>, report: &Report, topo: &Topo) -> Result<(), Memory>
    requires { IsToldReport topo.now.nodes report.now }
    ensures { OnOk result (out.new.items ≡ out.old.items ++ report_text topo.now.nodes report.now) }
{
    put_list(out, report.endpoint, &report.list, topo)?;
    let records = report.list.records.items();
    put_records(out, records, report.pieces.items(), report.names.items())
}

fn put_list(out: &mut Vec<u8>, endpoint: u32, list: &PoisonList, topo: &Topo) -> Result<(), Memory>
    requires { endpoint < length topo.now.nodes }
    ensures { OnOk result (out.new.items ≡ out.old.items ++ list_text topo.now.nodes endpoint list.now) }
{
    let mut line = ShortText::new();
    line.put_node(b"poison ", endpoint, topo);
    line.put_long_number(b" records ", list.records.items().len() as u64);
    put_flags(&mut line, list);
    put_short_line(out, &mut line)
}

/// Appends what a poison list says of itself.
fn put_flags(line: &mut ShortText, list: &PoisonList)
    requires { length line.old ≤ 60 }
    ensures text { line.new ≡ line.old ++ flags_text list.now }
    ensures len { length line.new ≤ length line.old + 50 }
{
    put_flag(line, list.more, b" more");
    put_overflow(line, list.overflow);
    put_flag(line, list.scanning, b" scanning");
}

fn put_flag(line: &mut ShortText, flag: bool, text: &[u8])
    requires { length line.old + length text.now ≤ short_limit }
    ensures text { line.new ≡ line.old ++ flag_text flag text.now }
    ensures len { length line.new ≤ length line.old + length text.now }
{
    if flag {
        line.put(text);
    }
}

fn put_overflow(line: &mut ShortText, overflow: Option<u64>)
    requires { length line.old ≤ 80 }
    ensures text { line.new ≡ line.old ++ overflow_text overflow }
    ensures len { length line.new ≤ length line.old + 30 }
{
    if let Some(timestamp) = overflow {
        line.put_long_number(b" overflow ", timestamp);
    }
}

fn put_records(
    out: &mut Vec<u8>,
    records: &[Entry],
    pieces: &[Poisoned],
    names: &[Name],
) -> Result<(), Memory>
    requires len { length pieces.now ≡ length records.now }
    requires regions { All (λ poisoned. All (λ part. region_of part < length names.now) poisoned.parts) pieces.now }
    ensures { OnOk result (out.new.items ≡ out.old.items ++ flat_map (record_text names.now) (zip records.now pieces.now)) }
{
    for (i, entry) in records.iter().enumerate() {
        put_record(out, entry, &pieces[i], names)?;
    }
    Ok(())
}

fn put_record(
    out: &mut Vec<u8>,
    entry: &Entry,
    poisoned: &Poisoned,
    names: &[Name],
) -> Result<(), Memory>
    requires { All (λ part. region_of part < length names.now) poisoned.now.parts }
    ensures { OnOk result (out.new.items ≡ out.old.items ++ record_text names.now (entry.now, poisoned.now)) }
{
    put_entry(out, entry)?;
    put_parts(out, poisoned.parts.items(), names)?;
    put_unmapped(out, poisoned.unmapped)
}

fn put_entry(out: &mut Vec<u8>, entry: &Entry) -> Result<(), Memory>
    ensures { OnOk result (out.new.items ≡ out.old.items ++ entry_text entry.now) }
{
    let mut line = ShortText::new();
    line.put_hex(b"record ", entry.dpa);
    line.put_long_number(b" length ", 64 * u64::from(entry.units));
    line.put(b" source ");
    put_source(&mut line, entry.source);
    put_short_line(out, &mut line)
}

/// Appends what found the poison, or the number of a source that has no name.
fn put_source(line: &mut ShortText, source: u8)
    requires { length line.old ≤ 80 }
    ensures text { line.new ≡ line.old ++ source_text source }
    ensures len { length line.new ≤ length line.old + 10 }
{
    match source {
        0 => line.put(b"unknown"),
        1 => line.put(b"external"),
        2 => line.put(b"internal"),
        3 => line.put(b"injected"),
        7 => line.put(b"vendor"),
        _ => line.put_number(b"", u32::from(source)),
    }
}

fn put_parts(out: &mut Vec<u8>, parts: &[Part], names: &[Name]) -> Result<(), Memory>
    requires { All (λ part. region_of part < length names.now) parts.now }
    ensures { OnOk result (out.new.items ≡ out.old.items ++ flat_map (part_text names.now) parts.now) }
{
    for part in parts {
        put_part(out, part, names)?;
    }
    Ok(())
}

fn put_part(out: &mut Vec<u8>, part: &Part, names: &[Name]) -> Result<(), Memory>
    requires { region_of part.now < length names.now }
    ensures { OnOk result (out.new.items ≡ out.old.items ++ part_text names.now part.now) }
{
    match part {
        Part::Run(run) => put_run(out, run, names),
        Part::Wide(wide) => put_wide(out, wide, names),
    }
}

fn put_run(out: &mut Vec<u8>, run: &Run, names: &[Name]) -> Result<(), Memory>
    requires { run.now.region < length names.now }
    ensures { OnOk result (out.new.items ≡ out.old.items ++ part_text names.now (parts.Run run.now)) }
{
    let mut line = ShortText::new();
    line.put_hex(b"run ", run.h);
    line.put_long_number(b" ", run.len);
    put_region(&mut line, run.region, names);
    put_whole_text(out, line.bytes())
}

fn put_wide(out: &mut Vec<u8>, wide: &Wide, names: &[Name]) -> Result<(), Memory>
    requires { wide.now.region < length names.now }
    ensures { OnOk result (out.new.items ≡ out.old.items ++ part_text names.now (parts.Wide wide.now)) }
{
    let mut line = ShortText::new();
    line.put_hex(b"wide ", wide.first);
    line.put_hex(b" ", wide.last);
    line.put_long_number(b" ", wide.count);
    put_region(&mut line, wide.region, names);
    put_whole_text(out, line.bytes())
}

/// Appends the end of a line that tells a region by its place among the names.
fn put_region(text: &mut ShortText, region: u32, names: &[Name])
    requires room { length text.old ≤ 100 }
    requires region { region < length names.now }
    ensures { text.new ≡ text.old ++ line (codes " region " ++ region_text names.now region) }
{
    text.put_name(b" region ", &names[region as usize]);
    text.put(b"\n");
}

fn put_unmapped(out: &mut Vec<u8>, bytes: u64) -> Result<(), Memory>
    ensures { OnOk result (out.new.items ≡ out.old.items ++ unmapped_text bytes) }
{
    if bytes == 0 {
        return Ok(());
    }
    let mut line = ShortText::new();
    line.put_long_number(b"unmapped ", bytes);
    put_short_line(out, &mut line)
}
