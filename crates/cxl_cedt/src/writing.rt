//! The writer: reserved fields are zero.

ghost use Rattle.std.specs.Prelude.{◌≡◌, ◌++◌, ◌∷◌, [], ◌≤◌, ◌<◌, length, codes, IfOk, OnOk};
ghost use Rattle.std.specs.List.{flat_map};
ghost use Rattle.cxl_enc.specs.Limits.{file_limit};
ghost use Rattle.cxl_table.specs.CedtFields.{CedtFields};
ghost use Rattle.cxl_cedt.specs.Table.{IsTableText, AreRecordTexts};
ghost use Rattle.cxl_cedt.specs.Spelling.{number_bytes, frame, chbs_spelling, window_range, window_codes, cfmws_spelling, cxims_spelling, other_spelling, record_spelling, header, spelling_with, spelling};
ghost use Rattle.cxl_cedt.specs.inner.Widths.{HeadFits, ChbsFits, CfmwsFits, CximsFits, OtherFits, RecordFits, HasText};

use crate::header::checksum;
use crate::layout::{
    CFMWS_KIND, CHBS_KIND, CHBS_SIZE, CHECKSUM_PLACE, CXIMS_KIND, FRAME_SIZE, MAPS_FRONT_SIZE,
    WINDOW_FRONT_SIZE,
};
use crate::numbers::{put_u16, put_u32, put_u32s, put_u64, put_u64s};
use byteorder::{ByteOrder, LittleEndian};
use cxl_enc::Memory;
use cxl_table::{Cedt, Cfmws, Chbs, Cxims, Head, Other, Record};
use std::alloc::Global;

/// The bytes of the table, with its true length and checksum, and with reserved fields zero; a record of
/// another type keeps its reserved byte. Takes memory for them. (ACPI CEDT.)
pub fn write(alloc: Global, cedt: &Cedt) -> Result<Vec<u8>, Memory>
    ensures spelling { IfOk result (λ bytes. bytes.items ≡ spelling cedt.now) }
    ensures fits { IfOk result (λ bytes. length bytes.items ≤ file_limit) }
    // The bytes spell the table and no other, so that reading them gives it back.
    ensures table { IfOk result (λ bytes. IsTableText bytes.items cedt.now) }
    ensures only { IfOk result (λ bytes. (other : CedtFields) → IsTableText bytes.items other → other ≡ cedt.now) }
{
    let mut out = without_checksum(alloc, cedt)?;
    out[CHECKSUM_PLACE] = 0u8.wrapping_sub(checksum(&out));
    Ok(out)
}

/// The bytes with 0 in the place of the checksum.
fn without_checksum(alloc: Global, cedt: &Cedt) -> Result<Vec<u8>, Memory>
    ensures spelled { IfOk result (λ bytes. bytes.items ≡ spelling_with 0 cedt.now) }
    ensures sound { OnOk result (HasText cedt.now) }
{
    let size = cedt.size();
    let mut out = Vec::with_capacity(alloc, size as usize)?;
    put_header(&mut out, cedt.head(), size)?;
    spell_records(&mut out, cedt.records())?;
    Ok(out)
}

/// Appends the header, with 0 in the place of its checksum.
pub fn put_header(out: &mut Vec<u8>, head: &Head, size: u32) -> Result<(), Memory>
    ensures spelled { OnOk result (out.new.items ≡ out.old.items ++ header size 0 head.now) }
    ensures fits { OnOk result (HeadFits head.now) }
{
    put_opening(out, size, head.revision)?;
    out.extend_from_slice(&head.oem_id)?;
    out.extend_from_slice(&head.oem_table)?;
    put_u32(out, head.oem_revision)?;
    out.extend_from_slice(&head.creator)?;
    put_u32(out, head.creator_revision)
}

/// Appends the first ten bytes of the header, with 0 in the place of its checksum.
fn put_opening(out: &mut Vec<u8>, size: u32, revision: u8) -> Result<(), Memory>
    ensures spelled { OnOk result (out.new.items ≡ out.old.items ++ (codes "CEDT" ++ number_bytes 4 size ++ revision ∷ 0 ∷ [])) }
    ensures fits { revision < 256 }
{
    out.extend_from_slice(b"CEDT")?;
    put_u32(out, size)?;
    Ok(out.extend_from_slice(&[revision, 0])?)
}

fn spell_records(out: &mut Vec<u8>, records: &[Record]) -> Result<(), Memory>
    ensures spelled { OnOk result (out.new.items ≡ out.old.items ++ flat_map record_spelling records.now) }
    ensures texts { OnOk result (AreRecordTexts (flat_map record_spelling records.now) records.now) }
{
    for item in records {
        spell_record(out, item)?;
    }
    Ok(())
}

pub fn spell_record(out: &mut Vec<u8>, item: &Record) -> Result<(), Memory>
    ensures spelled { OnOk result (out.new.items ≡ out.old.items ++ record_spelling item.now) }
    ensures fits { OnOk result (RecordFits item.now) }
{
    match item {
        Record::Chbs(chbs) => spell_chbs(out, chbs),
        Record::Cfmws(window) => spell_cfmws(out, window),
        Record::Cxims(maps) => spell_cxims(out, maps),
        Record::Other(other) => spell_other(out, other),
    }
}

/// Appends a record's type, the byte after it, and the record's length.
#[tactic(auto, unfolding(crate::specs::Spelling::number_bytes))]
fn put_frame(out: &mut Vec<u8>, kind: u8, second: u8, size: u16) -> Result<(), Memory>
    ensures { OnOk result (out.new.items ≡ out.old.items ++ frame kind second size) }
{
    let mut bytes = [kind, second, 0, 0];
    LittleEndian::write_u16(&mut bytes[2..], size);
    out.extend_from_slice(&bytes)?;
    Ok(())
}

fn spell_chbs(out: &mut Vec<u8>, chbs: &Chbs) -> Result<(), Memory>
    ensures spelled { OnOk result (out.new.items ≡ out.old.items ++ chbs_spelling chbs.now) }
    ensures fits { OnOk result (ChbsFits chbs.now) }
{
    put_frame(out, CHBS_KIND, 0, CHBS_SIZE)?;
    put_u32s(out, &[chbs.uid, chbs.version, 0])?;
    put_u64s(out, &[chbs.base, chbs.length])
}

fn spell_cfmws(out: &mut Vec<u8>, window: &Cfmws) -> Result<(), Memory>
    ensures spelled { OnOk result (out.new.items ≡ out.old.items ++ cfmws_spelling window.now) }
    ensures fits { OnOk result (CfmwsFits window.now) }
{
    let ways = window.ways();
    let targets = window.targets();
    put_window_range(out, targets.len(), window.base(), window.size())?;
    put_window_codes(out, ways, window.xor(), window.gran())?;
    put_u16(out, window.restrict())?;
    put_u16(out, window.qtg())?;
    put_u32s(out, targets)
}

/// Appends the first 24 bytes of a window with so many targets.
#[tactic(auto, unfolding(crate::specs::Spelling::window_range))]
fn put_window_range(out: &mut Vec<u8>, count: usize, base: u64, size: u64) -> Result<(), Memory>
    requires { count ≤ 16 }
    ensures { OnOk result (out.new.items ≡ out.old.items ++ window_range count base size) }
{
    put_frame(out, CFMWS_KIND, 0, WINDOW_FRONT_SIZE + 4 * count as u16)?;
    put_u32(out, 0)?;
    put_u64(out, base)?;
    put_u64(out, size)
}

/// Appends the next 8 bytes of a window.
#[tactic(auto, unfolding(crate::specs::Spelling::window_codes))]
fn put_window_codes(out: &mut Vec<u8>, ways: u8, xor: bool, gran: u8) -> Result<(), Memory>
    ensures { OnOk result (out.new.items ≡ out.old.items ++ window_codes ways xor gran) }
{
    out.extend_from_slice(&[ways, u8::from(xor), 0, 0])?;
    put_u32(out, u32::from(gran))
}

fn spell_cxims(out: &mut Vec<u8>, maps: &Cxims) -> Result<(), Memory>
    ensures spelled { OnOk result (out.new.items ≡ out.old.items ++ cxims_spelling maps.now) }
    ensures fits { OnOk result (CximsFits maps.now) }
{
    let list = maps.maps();
    put_frame(out, CXIMS_KIND, 0, MAPS_FRONT_SIZE + 8 * list.len() as u16)?;
    out.extend_from_slice(&[0, 0, maps.gran(), list.len() as u8])?;
    put_u64s(out, list)
}

fn spell_other(out: &mut Vec<u8>, other: &Other) -> Result<(), Memory>
    ensures spelled { OnOk result (out.new.items ≡ out.old.items ++ other_spelling other.now) }
    ensures fits { OnOk result (OtherFits other.now) }
{
    let body = other.body();
    put_frame(
        out,
        other.kind(),
        other.reserved(),
        FRAME_SIZE + body.len() as u16,
    )?;
    if body.is_empty() {
        return Ok(());
    }
    Ok(out.extend_from_slice(body)?)
}
