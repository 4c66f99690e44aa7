//! The bytes of a table as the writer gives them, made in the place of those that spell it.

ghost use Rattle.std.specs.Prelude.{◌≡◌, ◌+◌, ◌≤◌, length, IfOk, OnOk};
ghost use Rattle.cxl_enc.specs.Limits.{file_limit};
ghost use Rattle.cxl_cedt.specs.Reading.{table_in};
ghost use Rattle.cxl_table.specs.Records.{record_length};
ghost use Rattle.cxl_cedt.specs.Spelling.{record_spelling, spelling_with, spelling};
ghost use Rattle.cxl_cedt.specs.inner.Kept.{IsTextOf};
ghost use Rattle.cxl_cedt.specs.inner.Mending.{with_part, mended, FitIn};
ghost use Rattle.cxl_cedt.specs.inner.Widths.{AreBelow};

use crate::counted::CountedRecords;
use crate::header::{checksum, head_of};
use crate::layout::CHECKSUM_PLACE;
use crate::writing::{put_header, spell_record};
use cxl_enc::Memory;
use cxl_table::Record;
use std::alloc::Global;

/// The bytes of a table of which these records are judged, as `write` gives them: a record of another type stays as it is,
/// and one that is judged has fields that are reserved.
pub fn normal_of(alloc: Global, bytes: Vec<u8>, judged: &CountedRecords) -> Result<Vec<u8>, Memory>
    requires { IsTextOf bytes.items judged.now }
    ensures spelling { IfOk result (λ out. out.items ≡ spelling (table_in bytes.items)) }
    ensures fits { IfOk result (λ out. length out.items ≤ file_limit) }
{
    let mut out = without_checksum(alloc, bytes, judged)?;
    out[CHECKSUM_PLACE] = 0u8.wrapping_sub(checksum(&out));
    Ok(out)
}

/// The same with 0 in the place of the checksum.
fn without_checksum(
    alloc: Global,
    bytes: Vec<u8>,
    judged: &CountedRecords,
) -> Result<Vec<u8>, Memory>
    requires { IsTextOf bytes.items judged.now }
    ensures spelled { IfOk result (λ out. out.items ≡ spelling_with 0 (table_in bytes.items)) }
    ensures fits { IfOk result (λ out. length out.items ≡ length bytes.items) }
{
    let mut out = bytes;
    mend(alloc, &mut out, judged)?;
    Ok(out)
}

/// Writes the header with 0 in the place of the checksum, and the spelling of each record that is judged, where they stand.
fn mend(alloc: Global, bytes: &mut [u8], judged: &CountedRecords) -> Result<(), Memory>
    requires { IsTextOf bytes.old judged.now }
    ensures spelled { OnOk result (bytes.new ≡ spelling_with 0 (table_in bytes.old)) }
    ensures size { OnOk result (length bytes.new ≡ length bytes.old) }
{
    let mut header = Vec::new(alloc);
    put_header(&mut header, &head_of(bytes), bytes.len() as u32)?;
    put_over(bytes, 0, &header);
    mend_records(alloc, bytes, judged.records(), judged.places())
}

/// Writes the spelling of each record to the place at which the record begins.
fn mend_records(
    alloc: Global,
    bytes: &mut [u8],
    records: &[Record],
    places: &[u32],
) -> Result<(), Memory>
    requires each { length places.now ≡ length records.now }
    requires fit { FitIn (length bytes.old) places.now records.now }
    ensures mended { OnOk result (bytes.new ≡ mended bytes.old places.now records.now) }
    ensures size { OnOk result (length bytes.new ≡ length bytes.old) }
{
    for i in 0..records.len() {
        let item = &records[i];
        mend_record(alloc, bytes, item, places[i] as usize)?;
    }
    Ok(())
}

/// Writes the spelling of a record to this place.
fn mend_record(alloc: Global, bytes: &mut [u8], item: &Record, at: usize) -> Result<(), Memory>
    requires { at + record_length item.now ≤ length bytes.old }
    ensures mended { OnOk result (bytes.new ≡ with_part bytes.old at (record_spelling item.now)) }
    ensures size { OnOk result (length bytes.new ≡ length bytes.old) }
{
    let mut text = Vec::new(alloc);
    spell_record(&mut text, item)?;
    put_over(bytes, at, &text);
    Ok(())
}

/// Writes a part over the bytes from this place on.
fn put_over(bytes: &mut [u8], at: usize, part: &[u8])
    requires { at + length part.now ≤ length bytes.old }
    ensures value { bytes.new ≡ with_part bytes.old at part.now }
    ensures size { length bytes.new ≡ length bytes.old }
    ensures known { AreBelow 256 bytes.old }
{
    bytes[at..at + part.len()].copy_from_slice(part);
}
