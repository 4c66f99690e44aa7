//! The record that a text without fault spells.

ghost use Rattle.std.specs.Prelude.{◌≡◌, ◌<◌, ◌≤◌, [], ◌∷◌, ◌++◌, length, false, IfOk, OnOk};
ghost use Rattle.cxl_table.specs.Records.{kind_of, is_kind_full};
ghost use Rattle.cxl_cedt.specs.Table.{kind_said};
ghost use Rattle.cxl_table.specs.Judged.{judged_places};
ghost use Rattle.cxl_cedt.specs.inner.Kept.{kept_of};
ghost use Rattle.cxl_cedt.specs.inner.Decoding.{IsSoundText, IsSoundWindow, AreSoundMaps, chbs_of, cfmws_of, cxims_of, other_of, record_of};

use crate::counted::{CountedRecords, Others};
use crate::layout::{
    ARITHMETIC_PLACE, CFMWS_KIND, CHBS_KIND, CXIMS_KIND, FRAME_SIZE, KIND_PLACE, MAPS_COUNT_PLACE,
    MAPS_FRONT_SIZE, MAPS_GRAN_PLACE, QTG_PLACE, REGISTER_BASE_PLACE, REGISTER_LENGTH_PLACE,
    RESERVED_PLACE, RESTRICT_PLACE, UID_PLACE, VERSION_PLACE, WAYS_PLACE, WINDOW_BASE_PLACE,
    WINDOW_FRONT_SIZE, WINDOW_GRAN_PLACE, WINDOW_SIZE_PLACE,
};
use crate::numbers::{u8_at, u16_at, u32_at, u32s_at, u64_at, u64s_at};
use cxl_enc::{Memory, ways_of};
use cxl_table::{Cfmws, Chbs, Cxims, Other, Record};
use std::alloc::Global;

/// Adds the record of a text, which begins at byte `at`, to those that are kept, unless it is of another type and those
/// are passed over.
pub fn add_record(
    alloc: Global,
    kept: &mut CountedRecords,
    others: Others,
    text: &[u8],
    at: u32,
) -> Result<(), Memory>
    requires sound { IsSoundText text.now }
    requires few { length text.now ≤ 65535 }
    requires room { is_kind_full (kind_of (record_of text.now)) kept.old.records ≡ false }
    ensures records { OnOk result (kept.new.records ≡ kept.old.records ++ kept_of others (record_of text.now ∷ [])) }
    ensures places { OnOk result (kept.new.places ≡ kept.old.places ++ judged_places at (record_of text.now ∷ [])) }
{
    if u8_at(text, KIND_PLACE) > CXIMS_KIND {
        return add_other(alloc, kept, others, text);
    }
    add_judged(alloc, kept, text, at)
}

/// Adds the record of a text of another type, unless those are passed over.
fn add_other(
    alloc: Global,
    kept: &mut CountedRecords,
    others: Others,
    text: &[u8],
) -> Result<(), Memory>
    requires sound { IsSoundText text.now }
    requires few { length text.now ≤ 65535 }
    requires other { 2 < kind_said text.now }
    ensures records { OnOk result (kept.new.records ≡ kept.old.records ++ kept_of others (record_of text.now ∷ [])) }
    ensures places { OnOk result (kept.new.places ≡ kept.old.places) }
{
    match others {
        Others::Kept => kept.push_other(other_of(alloc, text)?),
        Others::PassedOver => Ok(()),
    }
}

/// Adds the record of a text of one of the three judged types. A table has few of them, so this stands apart from the loop
/// over its records.
#[inline(never)]
fn add_judged(alloc: Global, kept: &mut CountedRecords, text: &[u8], at: u32) -> Result<(), Memory>
    requires sound { IsSoundText text.now }
    requires judged { kind_said text.now ≤ 2 }
    requires room { is_kind_full (kind_of (record_of text.now)) kept.old.records ≡ false }
    ensures records { OnOk result (kept.new.records ≡ kept.old.records ++ record_of text.now ∷ []) }
    ensures places { OnOk result (kept.new.places ≡ kept.old.places ++ at ∷ []) }
{
    kept.push(judged_of(alloc, text)?, at)
}

/// The record of a text of one of the three judged types.
#[tactic(auto, unfolding(crate::specs::inner::Decoding::record_of))]
fn judged_of(alloc: Global, text: &[u8]) -> Result<Record, Memory>
    requires sound { IsSoundText text.now }
    requires judged { kind_said text.now ≤ 2 }
    ensures { IfOk result (λ r. r ≡ record_of text.now) }
{
    match u8_at(text, KIND_PLACE) {
        CHBS_KIND => Ok(Record::Chbs(chbs_of(text))),
        CFMWS_KIND => Ok(Record::Cfmws(cfmws_of(alloc, text)?)),
        _ => Ok(Record::Cxims(cxims_of(alloc, text)?)),
    }
}

#[tactic(auto, unfolding(crate::specs::inner::Decoding::chbs_of))]
fn chbs_of(text: &[u8]) -> Chbs
    requires { length text.now ≡ 32 }
    ensures { result ≡ chbs_of text.now }
{
    Chbs {
        uid: u32_at(text, UID_PLACE),
        version: u32_at(text, VERSION_PLACE),
        base: u64_at(text, REGISTER_BASE_PLACE),
        length: u64_at(text, REGISTER_LENGTH_PLACE),
    }
}

#[tactic(auto, unfolding(crate::specs::inner::Decoding::cfmws_of))]
fn cfmws_of(alloc: Global, text: &[u8]) -> Result<Cfmws, Memory>
    requires { IsSoundWindow text.now }
    ensures { IfOk result (λ c. c ≡ cfmws_of text.now) }
{
    let ways = u8_at(text, WAYS_PLACE);
    let count = ways_of(ways).unwrap_or(0);
    let targets = u32s_at(alloc, text, WINDOW_FRONT_SIZE as usize, count as usize)?;
    Ok(Cfmws::new(
        u64_at(text, WINDOW_BASE_PLACE),
        u64_at(text, WINDOW_SIZE_PLACE),
        ways,
        u8_at(text, ARITHMETIC_PLACE) == 1,
        u32_at(text, WINDOW_GRAN_PLACE) as u8,
        u16_at(text, RESTRICT_PLACE),
        u16_at(text, QTG_PLACE),
        targets,
    ))
}

#[tactic(auto, unfolding(crate::specs::inner::Decoding::cxims_of))]
fn cxims_of(alloc: Global, text: &[u8]) -> Result<Cxims, Memory>
    requires { AreSoundMaps text.now }
    ensures { IfOk result (λ c. c ≡ cxims_of text.now) }
{
    let maps = u64s_at(
        alloc,
        text,
        MAPS_FRONT_SIZE as usize,
        u8_at(text, MAPS_COUNT_PLACE) as usize,
    )?;
    Ok(Cxims::new(u8_at(text, MAPS_GRAN_PLACE), maps))
}

#[tactic(auto, unfolding(crate::specs::inner::Decoding::other_of))]
fn other_of(alloc: Global, text: &[u8]) -> Result<Other, Memory>
    requires other { 2 < kind_said text.now }
    requires long { 4 ≤ length text.now }
    requires few { length text.now ≤ 65535 }
    ensures { IfOk result (λ c. c ≡ other_of text.now) }
{
    let body = body_of(alloc, &text[FRAME_SIZE as usize..])?;
    Ok(Other::new(u8_at(text, KIND_PLACE), u8_at(text, RESERVED_PLACE), body))
}

/// These bytes, for which an empty body takes no memory.
fn body_of(alloc: Global, bytes: &[u8]) -> Result<Vec<u8>, Memory>
    ensures { IfOk result (λ body. body.items ≡ bytes.now) }
{
    if bytes.is_empty() {
        return Ok(Vec::new(alloc));
    }
    Ok(Vec::from_slice(alloc, bytes)?)
}
